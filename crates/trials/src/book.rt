//! A book of grants on table 0 and the plain one beside it, and how many records a question and a revocation look at in the first.

use crate::both::{Both, agreed_names, expect};
use crate::counting::Counting;
use crate::driver::Call;
use explain::{are_sound, explain_needs};
use grants::{Book, BookView, Holder, Records, denial, holds, holds_option, last_loss, to_end};
use model_base::{Grant, Grantee, Kind, Need, Place, RecordName, Revocation, Table, User};
use std::alloc::{AllocError, Global};
use trials_base::{Attempt, TABLE, TrialFault, beside, grant_of, revocation_of};

/// The book at a place, with nothing counted yet.
fn counted(book: &Book, place: Place) -> Counting<BookView<'_>> {
    Counting {
        view: book.at(place),
        grants: 0,
        ends: 0,
    }
}

/// Two users, by the second and the third word.
fn users_of(call: &Call<'_>) -> (u32, u32) {
    (call.count(1), call.count(2))
}

/// A need on the table, by the words from the third on: a kind, and `OPTION` if it is to be granted further.
fn need_of(call: &Call<'_>) -> Need {
    let kind = match call.word(2) {
        "READ" => Kind::Read,
        _ => Kind::Insert,
    };
    Need {
        table: TABLE,
        kind,
        option: call.words.len() > 3,
    }
}

/// What a view says of a user's need: whether it is held, how it is denied, and where it was lost.
fn need_text<V: Records>(alloc: Global, view: &mut V, user: User, need: &Need) -> Attempt<String> {
    if !view.covers(need.table) {
        return Err(TrialFault::Call);
    }
    let held = if need.option {
        holds_option(view, user, need.kind, need.table)
    } else {
        holds(view, user, need.kind, need.table)
    };
    let denial = denial(view, user, need);
    let lost = if held {
        None
    } else {
        last_loss(view, user, need)
    };
    beside(format!(in alloc; "held: {held}, denial: {denial:?}, lost: {lost:?}"))
}

/// What both books at a place say of a user's need, and how many records were looked at.
fn counted_need(
    alloc: Global,
    both: &Both,
    place: Place,
    user: User,
    need: &Need,
) -> Attempt<String> {
    let mut view = counted(&both.book, place);
    let text = need_text(alloc, &mut view, user, need)?;
    expect(text == need_text(alloc, &mut both.plain.at(place), user, need)?)?;
    let (grants, ends) = (view.grants, view.ends);
    beside(format!(in alloc; "{text}; looked at {grants} grants and {ends} ends"))
}

/// The records that a revocation would end, as a view says.
fn ended<V: Records>(
    alloc: Global,
    view: &mut V,
    revocation: &Revocation,
) -> Attempt<Vec<RecordName>> {
    if view.at() != revocation.place || !view.covers(revocation.table) {
        return Err(TrialFault::Call);
    }
    Ok(to_end(alloc, view, revocation)?)
}

/// How many grants a revocation would end, as both books say, and how many it looks at for that.
fn ends_text(alloc: Global, both: &Both, place: Place, users: (u32, u32)) -> Attempt<String> {
    let revocation = revocation_of(place, users);
    let mut view = counted(&both.book, place);
    let names = ended(alloc, &mut view, &revocation)?;
    let others = beside(ended(alloc, &mut both.plain.at(place), &revocation))?;
    agreed_names(alloc, &names, &others)?;
    let (count, grants) = (names.len(), view.grants);
    beside(format!(in alloc; "ends {count}; looked at {grants} grants"))
}

/// What a view says of itself and of the record that is first.
fn first_text<V: Records>(alloc: Global, view: &mut V) -> Attempt<String> {
    let (place, slots, other) = (view.at(), view.slots(), view.covers(Table(1)));
    if slots == 0 || !view.covers(TABLE) {
        return Err(TrialFault::Call);
    }
    let (owner, grant, end) = (view.owner(TABLE), view.grant(0), view.end(0));
    let Some(grant) = grant else {
        return Err(TrialFault::Call);
    };
    let grantee = grant.grantee;
    beside(format!(in alloc;
        "place {place}, {slots} slots, table 1: {other}; {owner:?}, to Some({grantee:?}), ended {end:?}"
    ))
}

/// Which record of a view is next to a user, which after the last, and which is next by another.
fn next_text<V: Records>(alloc: Global, view: &mut V, users: (u32, u32)) -> Attempt<String> {
    let holder = &Holder {
        grantee: Grantee::User(User(users.0)),
        kind: Kind::Read,
        table: TABLE,
    };
    let slots = view.slots();
    let (to, later) = (view.next_to(*holder, 0), view.next_to(*holder, slots));
    let by = view.next_by(User(users.1), Kind::Read, TABLE, 0);
    beside(format!(in alloc; "; next to {to:?}, then {later:?}, by {by:?}"))
}

/// What a view says of itself.
fn view_text<V: Records>(alloc: Global, view: &mut V, users: (u32, u32)) -> Attempt<String> {
    let mut text = first_text(alloc, view)?;
    text.push_str(next_text(alloc, view, users)?.as_str())?;
    Ok(text)
}

/// What both books say of themselves at a place, which has to be the same.
fn same_view(alloc: Global, both: &Both, place: Place, users: (u32, u32)) -> Attempt<String> {
    let text = view_text(alloc, &mut both.book.at(place), users)?;
    let other = view_text(alloc, &mut both.plain.at(place), users)?;
    expect(text == other)?;
    Ok(text)
}

/// The lines that explain a user's need at a place, and whether they are sound.
fn lines_text(
    alloc: Global,
    book: &Book,
    place: Place,
    user: User,
    need: &Need,
) -> Attempt<String> {
    if book.tables().len() <= need.table.0 as usize {
        return Err(TrialFault::Call);
    }
    let needs = [*need];
    let lines = explain_needs(alloc, book, place, user, &needs)?;
    let sound = are_sound(book, place, user, &needs, &lines);
    beside(format!(in alloc; "{lines:?}, sound: {sound}"))
}

/// The grant of an option by the user before that of the number that is its place.
fn passed_on(place: Place) -> Grant {
    let user = u32::try_from(place).unwrap_or(u32::MAX);
    grant_of(place, (user.saturating_sub(1), user), true)
}

/// Makes deeds: `new`; `table PLACE`, of user 0; `grant` and `option PLACE USER USER`; `pass PLACE`, an option from the user before that
/// number to it; `extend PLACE`; `cut PLACE`.
fn change(alloc: Global, both: &mut Both, call: &Call<'_>) -> Attempt<()> {
    let place = call.number(0);
    match call.verb {
        "new" => *both = Both::new(alloc),
        "table" => return both.enter(place),
        "grant" => return both.give(&grant_of(place, users_of(call), false)),
        "option" => return both.give(&grant_of(place, users_of(call), true)),
        "pass" => return both.give(&passed_on(place)),
        "extend" => return both.extend(alloc, place),
        "cut" => both.cut(place),
        _ => return Err(TrialFault::NotText),
    }
    Ok(())
}

/// Says how many tables and records there are.
fn counts(alloc: Global, both: &Both) -> Attempt<String> {
    expect(both.are_same())?;
    let (tables, records) = (both.book.tables().len(), both.book.records().len());
    beside(format!(in alloc; "{tables} tables, {records} records"))
}

/// Makes a revocation.
fn revoke(alloc: Global, both: &mut Both, place: Place, users: (u32, u32)) -> Attempt<String> {
    let ended = both.take(alloc, &revocation_of(place, users))?;
    expect(both.are_same())?;
    beside(format!(in alloc; "ends {ended}"))
}

/// Makes a deed of two of five users that a number draws: a revocation, or a grant if its grantor may make it. Then asks for a need of its
/// grantee.
fn draw(alloc: Global, both: &mut Both, place: Place, number: u64) -> Attempt<()> {
    let users = ((number % 5) as u32, (number / 5 % 5) as u32);
    let (deed, option) = (number / 25 % 4, number / 100 % 2 == 1);
    if deed == 0 {
        both.take(alloc, &revocation_of(place, users))?;
    } else if let Err(fault) = both.give(&grant_of(place, users, deed > 1)) {
        if fault != TrialFault::Call {
            return Err(fault);
        }
    }
    let need = Need {
        table: TABLE,
        kind: Kind::Read,
        option,
    };
    counted_need(alloc, both, place.saturating_add(1), User(users.1), &need)?;
    expect(both.are_same())
}

/// Makes deeds at places from 1 on that a seed draws, by D. E. Knuth's linear congruential generator, and says what records there are:
/// `SEED DEEDS`.
fn draw_deeds(alloc: Global, both: &mut Both, call: &Call<'_>) -> Attempt<String> {
    let mut drawn = call.number(0);
    for place in 1..=call.number(1) {
        drawn = drawn
            .wrapping_mul(6_364_136_223_846_793_005)
            .wrapping_add(1_442_695_040_888_963_407);
        draw(alloc, both, place, drawn >> 33)?;
    }
    let ended = both
        .book
        .records()
        .iter()
        .filter(|record| record.end.is_some())
        .count();
    beside(format!(in alloc; "{} records, {ended} ended", both.book.records().len()))
}

/// Asks of both books, which have to say the same, but for `lines`.
fn answer(alloc: Global, both: &Both, call: &Call<'_>) -> Attempt<String> {
    let (place, user) = (call.number(0), User(call.count(1)));
    match call.verb {
        "ends" => ends_text(alloc, both, place, users_of(call)),
        "view" => same_view(alloc, both, place, users_of(call)),
        "need" => counted_need(alloc, both, place, user, &need_of(call)),
        _ => lines_text(alloc, &both.book, place, user, &need_of(call)),
    }
}

/// A change; `revoke PLACE USER USER`, and of one that isn't made `ends`; `draw SEED DEEDS`; `need PLACE USER KIND`, with `OPTION` or
/// without; `lines PLACE USER KIND`, of the book alone; `view PLACE USER USER`.
pub fn make(alloc: Global, both: &mut Both, call: &Call<'_>) -> Attempt<String> {
    match call.verb {
        "revoke" => revoke(alloc, both, call.number(0), users_of(call)),
        "draw" => draw_deeds(alloc, both, call),
        "ends" | "view" | "need" | "lines" => answer(alloc, both, call),
        _ => {
            change(alloc, both, call)?;
            counts(alloc, both)
        }
    }
}

/// The tables and the records of both books, as text.
pub fn picture(alloc: Global, both: &Both) -> Result<String, AllocError> {
    format!(in alloc; "{:?} {:?}", both.book.tables(), both.book.records())
}

//! The run of a text in order for C: see bohm.h.
//!
//! A handle is a pointer and a flag that C keeps. Each call takes the run out of the handle, and gives it back.
#![tactic(auto)]

ghost use Rattle.std.specs.Prelude.{◌≡◌, ◌≤◌, ◌<◌, ◌+◌, ◌++◌, ◌↔◌, [], false, ℕ, List, None, Some, IfErr, IfOk, IfSome, IfNone, IsSome, IsUtf8, MatchOption, OnOk, drop, length, option_map, pos, take, true};
ghost use Rattle.report.specs.Report.{IsReport};
ghost use Rattle.audit_text.specs.RowsText.{HasNoTable};
ghost use Rattle.log_text.specs.Fault.{kind_named};
ghost use Rattle.sequencer.specs.Names.{known_number};
ghost use Rattle.fed_run.specs.Stands.{IsFed, IsGivenOut, IsUnfed, KeepsLast, TextExplains, TextLacksTable, TextListsHolders, TextListsRows, unsent};
ghost use Rattle.bohm_c.specs.Asked.{TextListsAsked, asked_name};
ghost use Rattle.bohm_c.specs.Statuses.{IsAskStatus, IsExplainStatus, IsHoldersStatus, IsSetStatus, IsStatus, ask_status, explain_status, status_number, status_text};

mod handle;
mod parts;

use explain::ExplainFault;
use fed_run::{AskFault, FedRun, FeedFault};
pub use handle::Handle;
use model_base::Kind;
use privileges_text::kind_named;
use std::alloc::Global;
use std::boxed::Box;
use std::mem::replace;
use std::str::Utf8Error;

/// The call was done.
const DONE: i32 = 0;
/// Out of memory.
const MEMORY: i32 = 1;
/// There are as many lines as can be counted.
const FULL: i32 = 2;
/// The handle isn't open.
const CLOSED: i32 = 3;
/// The handle is open already.
const OPENED: i32 = 4;
/// The text was ended before.
const ENDED: i32 = 5;
/// Bytes of the text were given before.
const BEGUN: i32 = 6;
/// There is no such option.
const OPTION: i32 = 7;
/// No such place was reported yet.
const NO_PLACE: i32 = 8;
/// The statement of the place isn't kept.
const FORGOTTEN: i32 = 9;
/// There is too little room.
const ROOM: i32 = 10;
/// No reported statement creates the table.
const NO_TABLE: i32 = 11;
/// Lines wait to be run.
const WAITING: i32 = 12;
/// The word names no kind.
const NO_KIND: i32 = 13;

/// The option that says how many of the last places `bohm_explain` can explain.
const KEEP: u32 = 1;

/// The version of the library: major * 10000 + minor * 100 + patch.
const VERSION: u32 = 100;

/// Keeps the run in the handle. What it kept before is dropped.
fn put(handle: &mut Handle, run: Box<FedRun>)
    ensures { handle.new.run ≡ Some run.value }
{
    let _before = replace(handle, Handle::of(run)).into_box();
}

/// Takes the run out of the handle, which is closed then.
fn take(alloc: Global, handle: &mut Handle) -> Option<Box<FedRun>>
    ensures some { IfSome result (λ run. handle.old.run ≡ Some run.value) }
    ensures none { IfNone result (handle.old.run ≡ None) }
    ensures closed { handle.new.run ≡ None }
{
    replace(handle, Handle::closed(alloc)).into_box()
}

/// The status of a call.
fn status_number(done: Result<(), FeedFault>) -> i32
    ensures { result ≡ status_number done }
{
    match done {
        Ok(()) => DONE,
        Err(FeedFault::NoMemory) => MEMORY,
        Err(FeedFault::Full) => FULL,
        Err(FeedFault::Ended) => ENDED,
    }
}

/// The version of the library.
#[unsafe(no_mangle)]
pub extern "C" fn bohm_version() -> u32
    ensures { result ≡ 100 }
{
    VERSION
}

/// Opens a closed handle. An open one stays as it is.
#[unsafe(no_mangle)]
pub extern "C" fn bohm_open(alloc: Global, handle: &mut Handle) -> i32
    // An open handle keeps its run.
    ensures opened { IfSome handle.old.run (λ run. (result ≡ OPENED) × (handle.new.run ≡ Some run)) }
    // A closed one keeps a run that was given nothing, or stays closed where memory ran out.
    ensures done { handle.old.run ≡ None → result ≡ DONE → IfSome handle.new.run (λ run. IsFed run [] [] × (run.is_ended ≡ false)) }
    ensures open { handle.old.run ≡ None → result ≡ DONE → IsSome handle.new.run }
    ensures memory { handle.old.run ≡ None → (result ≡ DONE → ⊥) → (result ≡ MEMORY) × (handle.new.run ≡ None) }
{
    if let Some(run) = take(alloc, handle) {
        put(handle, run);
        return OPENED;
    }
    let Ok(run) = Box::new(alloc, FedRun::new(alloc)) else {
        return MEMORY;
    };
    put(handle, run);
    DONE
}

/// Takes bytes of the log from `input` and writes bytes of its report to `out`, as `FedRun::step`.
#[unsafe(no_mangle)]
pub extern "C" fn bohm_step(
    alloc: Global,
    handle: &mut Handle,
    input: &[u8],
    out: &mut [u8],
    used: &mut usize,
    made: &mut usize,
) -> i32
    ensures used { used.new ≤ length input.now }
    ensures made { made.new ≤ length out.old }
    ensures full { result ≡ DONE → used.new < length input.now → made.new ≡ length out.old }
    // While there is room, no line waits that was taken.
    ensures prompt { result ≡ DONE → IfSome handle.new.run (λ new. IsGivenOut new out.new made.new) }
    // However a text is cut into calls, what was given and is to be given begins its report.
    ensures stands { IfSome handle.old.run (λ old. IfSome handle.new.run (λ new. (text written : List ℕ) → IsFed old text written
        → IsFed new (text ++ take used.new input.now) (written ++ take made.new out.new))) }
    ensures kept { IfSome handle.old.run (λ old. IfSome handle.new.run (λ new. new.is_ended ≡ old.is_ended)) }
    ensures open { IfSome handle.old.run (λ _. IsSome handle.new.run) }
    ensures status { IfSome handle.old.run (λ _. IsStatus result) }
    // After out of memory, and where no more lines can be counted, what was given is whole lines.
    ensures lines { (result ≡ DONE → ⊥) → (result ≡ ENDED → ⊥) → IfSome handle.new.run (λ new. unsent new ≡ []) }
    // A misuse changes nothing.
    ensures ended { IfSome handle.old.run (λ old. (result ≡ ENDED) ↔ (old.is_ended ≡ true)) }
    ensures still { result ≡ ENDED → (handle.new.run ≡ handle.old.run) × (out.new ≡ out.old) × (used.new ≡ 0) × (made.new ≡ 0) }
    ensures closed { handle.old.run ≡ None
        → (result ≡ CLOSED) × (handle.new.run ≡ None) × (out.new ≡ out.old) × (used.new ≡ 0) × (made.new ≡ 0) }
{
    *used = 0;
    *made = 0;
    let Some(mut run) = take(alloc, handle) else {
        return CLOSED;
    };
    let (step, done) = run.step(alloc, input, out);
    *used = step.used;
    *made = step.made;
    put(handle, run);
    status_number(done)
}

/// Ends the text, and writes the rest of its report to `out`, as `FedRun::finish`.
#[unsafe(no_mangle)]
pub extern "C" fn bohm_finish(
    alloc: Global,
    handle: &mut Handle,
    out: &mut [u8],
    made: &mut usize,
) -> i32
    ensures made { made.new ≤ length out.old }
    ensures stands { IfSome handle.old.run (λ old. IfSome handle.new.run (λ new. (text written : List ℕ) → IsFed old text written
        → IsFed new text (written ++ take made.new out.new))) }
    // Once it leaves room, all that was given is the report of all that was taken.
    ensures report { result ≡ DONE → made.new < length out.old → IfSome handle.old.run (λ old. (text written : List ℕ)
        → IsFed old text written → IsReport text (written ++ take made.new out.new)) }
    ensures kept { IfSome handle.old.run (λ _. IfSome handle.new.run (λ new. new.is_ended ≡ true)) }
    ensures open { IfSome handle.old.run (λ _. IsSome handle.new.run) }
    ensures status { IfSome handle.old.run (λ _. IsStatus result × (result ≡ ENDED → ⊥)) }
    // After out of memory, and where no more lines can be counted, what was given is whole lines.
    ensures lines { (result ≡ DONE → ⊥) → IfSome handle.new.run (λ new. unsent new ≡ []) }
    // A misuse changes nothing.
    ensures closed { handle.old.run ≡ None → (result ≡ CLOSED) × (handle.new.run ≡ None) × (out.new ≡ out.old) × (made.new ≡ 0) }
{
    *made = 0;
    let Some(mut run) = take(alloc, handle) else {
        return CLOSED;
    };
    let (count, done) = run.finish(alloc, out);
    *made = count;
    put(handle, run);
    status_number(done)
}

/// Sets an option of a run.
fn set(run: &mut FedRun, option: u32, value: u64) -> i32
    ensures done { result ≡ DONE → (option ≡ KEEP) × KeepsLast value run.old run.new }
    ensures still { (result ≡ DONE → ⊥) → run.new ≡ run.old }
    ensures fresh { option ≡ KEEP → (result ≡ DONE) ↔ IsUnfed run.old }
    ensures status { IsSetStatus option result }
{
    if option != KEEP {
        return OPTION;
    }
    if run.set_keep(value) { DONE } else { BEGUN }
}

/// Sets an option, before the first byte is given.
#[unsafe(no_mangle)]
pub extern "C" fn bohm_set(alloc: Global, handle: &mut Handle, option: u32, value: u64) -> i32
    ensures done { result ≡ DONE → IfSome handle.old.run (λ old. (option ≡ KEEP)
        × MatchOption handle.new.run ⊥ (KeepsLast value old)) }
    // The option can be set exactly where no byte was given and the text wasn't ended.
    ensures fresh { IfSome handle.old.run (λ old. option ≡ KEEP → (result ≡ DONE) ↔ IsUnfed old) }
    ensures status { IfSome handle.old.run (λ _. IsSetStatus option result) }
    // A misuse changes nothing.
    ensures still { (result ≡ DONE → ⊥) → handle.new.run ≡ handle.old.run }
    ensures closed { handle.old.run ≡ None → result ≡ CLOSED }
{
    let Some(mut run) = take(alloc, handle) else {
        return CLOSED;
    };
    let status = set(&mut run, option, value);
    put(handle, run);
    status
}

/// Why there is no explanation, as a status.
fn explain_status(fault: ExplainFault) -> i32
    ensures { result ≡ explain_status fault }
{
    match fault {
        ExplainFault::NoMemory => MEMORY,
        ExplainFault::NoSuchPlace | ExplainFault::NotFinished => NO_PLACE,
        ExplainFault::Forgotten => FORGOTTEN,
    }
}

/// Writes a text to the front of `out` where there is room for all of it, and says how many bytes it has.
fn write_whole(text: &[u8], out: &mut [u8], made: &mut usize) -> i32
    ensures made { made.new ≡ length text.now }
    ensures whole { result ≡ DONE → take made.new out.new ≡ text.now }
    ensures room { (result ≡ DONE) ↔ (length text.now ≤ length out.old) }
    ensures still { (result ≡ DONE → ⊥) → (result ≡ ROOM) × (out.new ≡ out.old) }
    ensures len { length out.new ≡ length out.old }
{
    let whole = text.len();
    *made = whole;
    if whole > out.len() {
        return ROOM;
    }
    out[..whole].copy_from_slice(text);
    DONE
}

/// Writes why the statement of a place was admitted or denied, as `bohm_explain`.
fn write_explanation(
    alloc: Global,
    run: &FedRun,
    place: u64,
    out: &mut [u8],
    made: &mut usize,
) -> i32
    requires { made.old ≡ 0 }
    ensures told { result ≡ DONE → TextExplains run.now place (take made.new out.new) × (made.new ≤ length out.old) }
    ensures room { result ≡ ROOM → (length out.old < made.new)
        × ((text : List ℕ) × (TextExplains run.now place text × (length text ≡ made.new))) }
    ensures none { (result ≡ NO_PLACE) ↔ (run.now.run.reported ≤ place) }
    ensures forgotten { result ≡ FORGOTTEN → place + run.now.keep < run.now.run.reported }
    ensures status { IsExplainStatus result }
    ensures still { (result ≡ DONE → ⊥) → out.new ≡ out.old }
    ensures made { (result ≡ DONE → ⊥) → (result ≡ ROOM → ⊥) → made.new ≡ 0 }
{
    let mut text = Vec::new(alloc);
    match run.explain(alloc, place, &mut text) {
        Ok(()) => write_whole(&text, out, made),
        Err(fault) => explain_status(fault),
    }
}

/// Writes to `out` why the statement of a reported place was admitted or denied, as `FedRun::explain`.
#[unsafe(no_mangle)]
pub extern "C" fn bohm_explain(
    alloc: Global,
    handle: &mut Handle,
    place: u64,
    out: &mut [u8],
    made: &mut usize,
) -> i32
    // It is the explanation of the place of each text that begins with what was taken.
    ensures told { result ≡ DONE → IfSome handle.old.run (λ run. TextExplains run place (take made.new out.new)
        × (made.new ≤ length out.old)) }
    // Where there is too little room, it is given how much is needed.
    ensures room { result ≡ ROOM → IfSome handle.old.run (λ run. (length out.old < made.new)
        × ((text : List ℕ) × (TextExplains run place text × (length text ≡ made.new)))) }
    ensures none { IfSome handle.old.run (λ run. (result ≡ NO_PLACE) ↔ (run.run.reported ≤ place)) }
    // The last places, as many as are to be kept, can be explained.
    ensures forgotten { IfSome handle.old.run (λ run. result ≡ FORGOTTEN → place + run.keep < run.run.reported) }
    ensures status { IfSome handle.old.run (λ _. IsExplainStatus result) }
    ensures same { handle.new.run ≡ handle.old.run }
    ensures still { (result ≡ DONE → ⊥) → out.new ≡ out.old }
    ensures made { (result ≡ DONE → ⊥) → (result ≡ ROOM → ⊥) → made.new ≡ 0 }
    ensures closed { handle.old.run ≡ None → result ≡ CLOSED }
{
    *made = 0;
    let Some(run) = take(alloc, handle) else {
        return CLOSED;
    };
    let status = write_explanation(alloc, &run, place, out, made);
    put(handle, run);
    status
}

/// Why it isn't said what is there, as a status.
fn ask_status(fault: AskFault) -> i32
    ensures { result ≡ ask_status fault }
{
    match fault {
        AskFault::NoMemory => MEMORY,
        AskFault::NoSuchTable => NO_TABLE,
        AskFault::Waiting => WAITING,
    }
}

/// The name of the table that is asked for, if there are bytes of one.
fn asked_name(table: &[u8]) -> Result<Option<&str>, Utf8Error>
    ensures named { IfOk result (λ name. option_map (λ name. name.now) name ≡ asked_name table.now) }
    ensures text { OnOk result (IsUtf8 table.now) }
    ensures none { IfErr result (λ _. IsUtf8 table.now → ⊥) }
{
    if table.is_empty() {
        return Ok(None);
    }
    let name = std::str::from_utf8(table)?;
    Ok(Some(name))
}

/// Writes the rows that are there, as `bohm_rows`.
fn write_rows(alloc: Global, run: &FedRun, table: &[u8], out: &mut [u8], made: &mut usize) -> i32
    requires { made.old ≡ 0 }
    ensures told { result ≡ DONE → TextListsRows run.now (asked_name table.now) (take made.new out.new) × (made.new ≤ length out.old) }
    ensures room { result ≡ ROOM → (length out.old < made.new)
        × ((text : List ℕ) × (TextListsRows run.now (asked_name table.now) text × (length text ≡ made.new))) }
    ensures none { IsUtf8 table.now → (result ≡ NO_TABLE) ↔ ((run.now.run.waiting.items ≡ [])
        × HasNoTable run.now.run.engine.log.names.tables (asked_name table.now)) }
    ensures lacks { result ≡ NO_TABLE → IsUtf8 table.now → TextLacksTable run.now (asked_name table.now) }
    ensures foreign { (IsUtf8 table.now → ⊥) → result ≡ NO_TABLE }
    ensures waiting { IsUtf8 table.now → (result ≡ WAITING) ↔ (0 < length run.now.run.waiting.items) }
    ensures status { IsAskStatus result }
    ensures still { (result ≡ DONE → ⊥) → out.new ≡ out.old }
    ensures made { (result ≡ DONE → ⊥) → (result ≡ ROOM → ⊥) → made.new ≡ 0 }
{
    let Ok(name) = asked_name(table) else {
        return NO_TABLE;
    };
    let mut rows = Vec::new(alloc);
    match run.rows(alloc, name, &mut rows) {
        Ok(()) => write_whole(&rows, out, made),
        Err(fault) => ask_status(fault),
    }
}

/// Writes to `out` the rows that are there after the reported places, of the table of a name, or of all where the name has no bytes, as
/// `FedRun::rows`.
#[unsafe(no_mangle)]
pub extern "C" fn bohm_rows(
    alloc: Global,
    handle: &mut Handle,
    table: &[u8],
    out: &mut [u8],
    made: &mut usize,
) -> i32
    // They are the rows of each text that begins with what was taken.
    ensures told { result ≡ DONE → IfSome handle.old.run (λ run. TextListsRows run (asked_name table.now) (take made.new out.new)
        × (made.new ≤ length out.old)) }
    // Where there is too little room, it is given how much is needed.
    ensures room { result ≡ ROOM → IfSome handle.old.run (λ run. (length out.old < made.new)
        × ((text : List ℕ) × (TextListsRows run (asked_name table.now) text × (length text ≡ made.new)))) }
    // There is no table exactly where no reported statement creates one of the name.
    ensures none { IfSome handle.old.run (λ run. IsUtf8 table.now → (result ≡ NO_TABLE) ↔ ((run.run.waiting.items ≡ [])
        × HasNoTable run.run.engine.log.names.tables (asked_name table.now))) }
    ensures lacks { result ≡ NO_TABLE → IfSome handle.old.run (λ run. IsUtf8 table.now → TextLacksTable run (asked_name table.now)) }
    // A name that isn't UTF-8 is that of no table.
    ensures foreign { IfSome handle.old.run (λ _. (IsUtf8 table.now → ⊥) → result ≡ NO_TABLE) }
    ensures waiting { IfSome handle.old.run (λ run. IsUtf8 table.now → (result ≡ WAITING) ↔ (0 < length run.run.waiting.items)) }
    ensures status { IfSome handle.old.run (λ _. IsAskStatus result) }
    ensures same { handle.new.run ≡ handle.old.run }
    ensures still { (result ≡ DONE → ⊥) → out.new ≡ out.old }
    ensures made { (result ≡ DONE → ⊥) → (result ≡ ROOM → ⊥) → made.new ≡ 0 }
    ensures closed { handle.old.run ≡ None → result ≡ CLOSED }
{
    *made = 0;
    let Some(run) = take(alloc, handle) else {
        return CLOSED;
    };
    let status = write_rows(alloc, &run, table, out, made);
    put(handle, run);
    status
}

/// The kind that a word names.
fn asked_kind(word: &[u8]) -> Option<Kind>
    ensures { result ≡ kind_named word.now }
{
    match std::str::from_utf8(word) {
        Ok(word) => kind_named(word),
        Err(_) => None,
    }
}

/// Writes who holds a kind on the table of a name, as `bohm_holders`.
fn write_holders(
    alloc: Global,
    run: &FedRun,
    kind: Kind,
    name: &str,
    out: &mut [u8],
    made: &mut usize,
) -> i32
    requires { made.old ≡ 0 }
    ensures told { result ≡ DONE → TextListsHolders run.now kind name.now (take made.new out.new) × (made.new ≤ length out.old) }
    ensures room { result ≡ ROOM → (length out.old < made.new)
        × ((text : List ℕ) × (TextListsHolders run.now kind name.now text × (length text ≡ made.new))) }
    ensures none { (result ≡ NO_TABLE) ↔ ((run.now.run.waiting.items ≡ [])
        × (known_number run.now.run.engine.log.names.tables name.now ≡ None)) }
    ensures lacks { result ≡ NO_TABLE → TextLacksTable run.now (Some name.now) }
    ensures waiting { (result ≡ WAITING) ↔ (0 < length run.now.run.waiting.items) }
    ensures status { IsAskStatus result }
    ensures still { (result ≡ DONE → ⊥) → out.new ≡ out.old }
    ensures made { (result ≡ DONE → ⊥) → (result ≡ ROOM → ⊥) → made.new ≡ 0 }
{
    let mut holders = Vec::new(alloc);
    match run.holders(alloc, kind, name, &mut holders) {
        Ok(()) => write_whole(&holders, out, made),
        Err(fault) => ask_status(fault),
    }
}

/// Writes who holds the kind that a word names, as `bohm_holders`.
fn write_asked(
    alloc: Global,
    run: &FedRun,
    kind: &[u8],
    table: &[u8],
    out: &mut [u8],
    made: &mut usize,
) -> i32
    requires { made.old ≡ 0 }
    ensures told { result ≡ DONE → TextListsAsked run.now kind.now table.now (take made.new out.new) × (made.new ≤ length out.old) }
    ensures room { result ≡ ROOM → (length out.old < made.new)
        × ((text : List ℕ) × (TextListsAsked run.now kind.now table.now text × (length text ≡ made.new))) }
    ensures kind { (result ≡ NO_KIND) ↔ (kind_named kind.now ≡ None) }
    ensures none { IsSome (kind_named kind.now) → IsUtf8 table.now → (result ≡ NO_TABLE) ↔ ((run.now.run.waiting.items ≡ [])
        × (known_number run.now.run.engine.log.names.tables table.now ≡ None)) }
    ensures lacks { result ≡ NO_TABLE → IsUtf8 table.now → TextLacksTable run.now (Some table.now) }
    ensures foreign { IsSome (kind_named kind.now) → (IsUtf8 table.now → ⊥) → result ≡ NO_TABLE }
    ensures waiting { IsSome (kind_named kind.now) → IsUtf8 table.now
        → (result ≡ WAITING) ↔ (0 < length run.now.run.waiting.items) }
    ensures status { IsHoldersStatus result }
    ensures still { (result ≡ DONE → ⊥) → out.new ≡ out.old }
    ensures made { (result ≡ DONE → ⊥) → (result ≡ ROOM → ⊥) → made.new ≡ 0 }
{
    let Some(kind) = asked_kind(kind) else {
        return NO_KIND;
    };
    match std::str::from_utf8(table) {
        Ok(name) => write_holders(alloc, run, kind, name, out, made),
        Err(_) => NO_TABLE,
    }
}

/// Writes to `out` who holds the kind that a word names on the table of a name after the reported places, as `FedRun::holders`.
#[unsafe(no_mangle)]
pub extern "C" fn bohm_holders(
    alloc: Global,
    handle: &mut Handle,
    kind: &[u8],
    table: &[u8],
    out: &mut [u8],
    made: &mut usize,
) -> i32
    // It is who holds the kind in each text that begins with what was taken.
    ensures told { result ≡ DONE → IfSome handle.old.run (λ run. TextListsAsked run kind.now table.now (take made.new out.new)
        × (made.new ≤ length out.old)) }
    // Where there is too little room, it is given how much is needed.
    ensures room { result ≡ ROOM → IfSome handle.old.run (λ run. (length out.old < made.new)
        × ((text : List ℕ) × (TextListsAsked run kind.now table.now text × (length text ≡ made.new)))) }
    // There is no kind exactly where the word names none.
    ensures kind { IfSome handle.old.run (λ _. (result ≡ NO_KIND) ↔ (kind_named kind.now ≡ None)) }
    // There is no table exactly where no reported statement creates one of the name.
    ensures none { IfSome handle.old.run (λ run. IsSome (kind_named kind.now) → IsUtf8 table.now → (result ≡ NO_TABLE)
        ↔ ((run.run.waiting.items ≡ []) × (known_number run.run.engine.log.names.tables table.now ≡ None))) }
    ensures lacks { result ≡ NO_TABLE → IfSome handle.old.run (λ run. IsUtf8 table.now → TextLacksTable run (Some table.now)) }
    // A name that isn't UTF-8 is that of no table.
    ensures foreign { IfSome handle.old.run (λ _. IsSome (kind_named kind.now) → (IsUtf8 table.now → ⊥) → result ≡ NO_TABLE) }
    ensures waiting { IfSome handle.old.run (λ run. IsSome (kind_named kind.now) → IsUtf8 table.now
        → (result ≡ WAITING) ↔ (0 < length run.run.waiting.items)) }
    ensures status { IfSome handle.old.run (λ _. IsHoldersStatus result) }
    ensures same { handle.new.run ≡ handle.old.run }
    ensures still { (result ≡ DONE → ⊥) → out.new ≡ out.old }
    ensures made { (result ≡ DONE → ⊥) → (result ≡ ROOM → ⊥) → made.new ≡ 0 }
    ensures closed { handle.old.run ≡ None → result ≡ CLOSED }
{
    *made = 0;
    let Some(run) = take(alloc, handle) else {
        return CLOSED;
    };
    let status = write_asked(alloc, &run, kind, table, out, made);
    put(handle, run);
    status
}

/// How many lines were reported, with a heading, which has no line of the report. 0 where the handle is closed.
#[unsafe(no_mangle)]
pub extern "C" fn bohm_lines(alloc: Global, handle: &mut Handle) -> u64
    ensures same { handle.new.run ≡ handle.old.run }
    ensures lines { IfSome handle.old.run (λ run. result ≡ run.run.lines) }
    ensures closed { handle.old.run ≡ None → result ≡ 0 }
{
    let Some(run) = take(alloc, handle) else {
        return 0;
    };
    let lines = run.lines();
    put(handle, run);
    lines
}

/// How many statements were accepted, which is the next place. 0 where the handle is closed.
#[unsafe(no_mangle)]
pub extern "C" fn bohm_places(alloc: Global, handle: &mut Handle) -> u64
    ensures same { handle.new.run ≡ handle.old.run }
    ensures places { IfSome handle.old.run (λ run. result ≡ length run.run.engine.log.statements) }
    ensures closed { handle.old.run ≡ None → result ≡ 0 }
{
    let Some(run) = take(alloc, handle) else {
        return 0;
    };
    let places = run.places();
    put(handle, run);
    places
}

/// The English of a status.
fn text_of(status: i32) -> &'static str
    ensures { result.now ≡ status_text status }
{
    match status {
        DONE => "done",
        MEMORY => "out of memory",
        FULL => "too many lines",
        CLOSED => "the handle is closed",
        OPENED => "the handle is open already",
        ENDED => "the log has ended",
        BEGUN => "the log has begun",
        OPTION => "no such option",
        NO_PLACE => "no such place",
        FORGOTTEN => "the statement is not kept",
        ROOM => "too little room",
        NO_TABLE => "no such table",
        WAITING => "lines wait to be run",
        NO_KIND => "no such kind",
        _ => "no such status",
    }
}

/// Writes the English of a status to the front of `out`, as much of it as there is room for, and returns how many bytes it has in all.
#[unsafe(no_mangle)]
pub extern "C" fn bohm_status_text(status: i32, out: &mut [u8]) -> usize
    ensures length { result ≡ length (status_text status) }
    ensures text { out.new ≡ take (length out.old) (status_text status) ++ drop (length (status_text status)) out.old }
{
    let text = text_of(status).as_bytes();
    let count = out.len().min(text.len());
    out[..count].copy_from_slice(&text[..count]);
    text.len()
}

/// Closes a handle, and frees what it keeps. A closed one stays closed.
#[unsafe(no_mangle)]
pub extern "C" fn bohm_close(alloc: Global, handle: &mut Handle)
    ensures { handle.new.run ≡ None }
{
    let _run = take(alloc, handle);
}

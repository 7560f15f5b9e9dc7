//! What a line reads as, and room for it.

ghost use Rattle.std.specs.Prelude.{◌≡◌, [], None};

use crate::statement::{RawDeed, RawForm, RawStatement, RawStep};
use line_words::{Name, RawAccess};
use model_base::Items;
use std::alloc::Global;

/// What a line reads as, where `read_into` leaves it: one line after another, so that none of it is moved, and memory is taken only where
/// the room isn't enough. Before the first line, and after a line with a fault, nothing is known of it.
#[derive(Drop)]
pub struct LineBuffers<'a> {
    /// The name of the user who makes it.
    pub user: Name<'a>,
    /// The accesses of a RUN.
    pub accesses: Vec<RawAccess<'a>>,
    /// The steps of a RUN.
    pub steps: Vec<RawStep<'a>>,
    /// The deed of a RUN.
    pub deed: Option<RawDeed<'a>>,
    /// The statement, where it is no RUN. Else there is none.
    pub other: Option<RawStatement<'a>>,
}

impl<'a> LineBuffers<'a> {
    ghost use Rattle.log_text.specs.LineBuffers.{sentence_of};
    ghost use Rattle.log_text.specs.Statement.{IsInGrammar};

    /// Room for nothing yet. It doesn't allocate.
    pub fn new(alloc: Global) -> LineBuffers<'a>
        ensures accesses { result.accesses.items ≡ [] }
        ensures steps { result.steps.items ≡ [] }
    {
        LineBuffers {
            user: Name::of(b"a"),
            accesses: Vec::new(alloc),
            steps: Vec::new(alloc),
            deed: None,
            other: None,
        }
    }

    /// The statement that the line was read as.
    pub(crate) fn into_statement(self) -> RawStatement<'a>
        requires { IsInGrammar (sentence_of self) }
        ensures { result ≡ sentence_of self.entry }
    {
        let LineBuffers {
            user,
            accesses,
            steps,
            deed,
            other,
        } = self;
        if let Some(statement) = other {
            return statement;
        }
        let form = RawForm::Run {
            accesses: Items::new(accesses),
            steps: Items::new(steps),
            deed,
        };
        RawStatement::of(user, form)
    }
}

/// The name once more.
pub(crate) fn same_name<'a>(name: &Name<'a>) -> Name<'a>
    ensures { result ≡ name.now }
{
    Name::of(name.as_str().as_bytes())
}

/// Leaves nothing there. Mostly nothing is there before.
#[inline(always)]
pub(crate) fn leave_none<T: Drop>(place: &mut Option<T>)
    ensures { place.new ≡ None }
{
    if place.is_some() {
        *place = None;
    }
}

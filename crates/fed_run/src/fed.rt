//! A run that is fed piece by piece.

ghost use Rattle.std.specs.Prelude.{◌≡◌, ◌≤◌, ◌<◌, ◌+◌, ◌++◌, ◌^◌, ◌↔◌, ◌==◌, ℕ, [], List, Err, IfErr, IfOk, None, OnErr, OnOk, Some, false, true, length, option_map, take};
ghost use Rattle.line_io.specs.declared.limits.TheConstants.{KEPT_BYTES};
ghost use Rattle.report.specs.Report.{IsReport};
ghost use Rattle.std.proofs.Props.{props};
ghost use Rattle.engine.specs.Engine.{finished};
ghost use Rattle.batched_text.specs.Batching.{IsSteady};
ghost use Rattle.batched_text.specs.History.{last_places, plan_in_order};
ghost use Rattle.sequencer.specs.Names.{known_number};
ghost use Rattle.fed_run.specs.Kept.{kept-prop};

use crate::fault::{AskFault, FeedFault};
use crate::keeping::keep_more;
use audit_text::{put_explanation, put_rows_there};
use batched_text::{Alone, LineRun, Runner, put_place};
use engine::Engine;
use explain::{ExplainFault, explain, explanations_name_earlier_grants};
use line_io::{KEPT_BYTES, cut_line};
use log_text::LineBuffers;
use model_base::{HashSeed, Kind, Place};
use privileges_text::put_holders;
use std::alloc::{AllocError, Global};

/// How far a call came.
#[derive(Clone, Copy, Debug)]
pub struct Step {
    /// How many bytes of the log it took.
    pub used: usize,
    /// How many bytes of the report it gave.
    pub made: usize,
}

/// The run of a text that its caller feeds: bytes of the log go in and bytes of the report come out, in whatever pieces the caller has.
/// It keeps the rows and the grants before the next place, the report's lines for 64 lines at most, and the first `KEPT_BYTES` of a line;
/// and statements and outcomes of the last places.
#[derive(Drop)]
pub struct FedRun {
    run: LineRun,
    /// Of how many of the last places statements and outcomes are kept at least.
    keep: u64,
    /// Of the line that has begun its first `KEPT_BYTES`.
    begun: Vec<u8>,
    /// How many of the pending bytes of the report were given.
    sent: usize,
    /// Whether the text was ended.
    is_ended: bool,
    ghost within: { sent ≤ length run.pending.items },
    ghost steady: { IsSteady (plan_in_order (last_places keep)) run } by { Prim.hlevel (props, kept-prop) },
}

impl FedRun {
    ghost use Rattle.report.specs.Report.{ParsedLine};
    ghost use Rattle.bohm_base.specs.Collecting.{ReadsAs};
    ghost use Rattle.batched_text.specs.Batching.{HasRoomForLine, Takes, TakesNothing, next_line};
    ghost use Rattle.batched_text.specs.Foretold.{log_names};
    ghost use Rattle.fed_run.specs.Stands.{Feeds, Gives, IsFed, IsGivenOut, IsUnfed, KeepsLast, TakesBytes, TextExplains, TextLacksTable, TextListsHolders, TextListsRows, unsent};
    ghost use Rattle.audit_text.specs.RowsText.{HasNoTable};

    /// Before the first byte. It doesn't allocate.
    pub fn new(alloc: Global) -> FedRun
        ensures stands { IsFed result [] [] }
        ensures open { result.is_ended ≡ false }
    {
        FedRun::seeded(alloc, HashSeed::fixed())
    }

    /// The same, which finds names, rows and grants under this seed.
    pub fn seeded(alloc: Global, seed: HashSeed) -> FedRun
        ensures stands { IsFed result [] [] }
        ensures open { result.is_ended ≡ false }
    {
        FedRun {
            run: LineRun::seeded(alloc, seed),
            keep: 0,
            begun: Vec::new(alloc),
            sent: 0,
            is_ended: false,
        }
    }

    /// Keeps statements and outcomes of this many of the last places, for `explain`. It returns `false`, and changes nothing, once a byte
    /// was taken or the end of the text was given.
    pub fn set_keep(&mut self, keep: u64) -> bool
        ensures fresh { (result ≡ true) ↔ IsUnfed self.old }
        ensures set { result ≡ true → KeepsLast keep self.old self.new }
        ensures stands { (input written : List ℕ) → IsFed self.old input written → IsFed self.new input written }
        ensures still { result ≡ false → self.new ≡ self.old }
    {
        if self.run.lines() > 0 || self.places() > 0 || self.run.waiting() > 0 {
            return false;
        }
        if !self.begun.is_empty() || self.is_ended {
            return false;
        }
        self.keep = keep;
        true
    }

    /// Why the statement of a place was admitted or denied, as `audit_text::explain_places` writes it unchecked, appended to an empty text.
    /// `NoSuchPlace` is returned exactly where no such place was reported yet. At least the last places can be explained, as many as are to
    /// be kept: of others `Forgotten` may be returned. `NoMemory` means out of memory; some of it may be in the text then.
    pub fn explain(
        &self,
        alloc: Global,
        place: Place,
        text: &mut Vec<u8>,
    ) -> Result<(), ExplainFault>
        requires { text.old.items ≡ [] }
        // It is the explanation of the place of each text that begins with what was taken.
        ensures told { OnOk result (TextExplains self.now place text.new.items) }
        ensures none { (result ≡ Err ExplainFault.NoSuchPlace) ↔ (self.now.run.reported ≤ place) }
        ensures forgotten { result ≡ Err ExplainFault.Forgotten → place + self.now.keep < self.now.run.reported }
        ensures finished { result ≡ Err ExplainFault.NotFinished → ⊥ }
    {
        if place >= self.run.reported() {
            return Err(ExplainFault::NoSuchPlace);
        }
        explanations_name_earlier_grants();
        let engine = self.run.engine();
        let _finished = engine.finished();
        let found = explain(alloc, engine, place)?;
        put_place(alloc, text, engine, place)?;
        put_explanation(alloc, text, engine, &found)?;
        Ok(())
    }

    /// The engine, which has run all places where no line waits.
    fn engine_run(&self) -> Result<&Engine, AskFault>
        ensures engine { IfOk result (λ engine. engine.now ≡ self.now.run.engine) }
        ensures all { IfOk result (λ engine. finished engine.now ≡ length engine.now.log.statements) }
        ensures none { OnOk result (self.now.run.waiting.items ≡ []) }
        ensures waiting { IfErr result (λ fault. (fault ≡ AskFault.Waiting) × (0 < length self.now.run.waiting.items)) }
    {
        if self.run.waiting() > 0 {
            return Err(AskFault::Waiting);
        }
        Ok(self.run.engine())
    }

    /// The rows that are there after the reported places, of the table of a name or of all, as `audit_text::rows_text` writes them, appended to
    /// an empty text. After `NoMemory` some of them may be in the text.
    pub fn rows(
        &self,
        alloc: Global,
        name: Option<&str>,
        text: &mut Vec<u8>,
    ) -> Result<(), AskFault>
        requires { text.old.items ≡ [] }
        // They are the rows of each text that begins with what was taken.
        ensures told { OnOk result (TextListsRows self.now (option_map (λ name. name.now) name.entry) text.new.items) }
        // NoSuchTable comes exactly where no reported statement creates a table of the name.
        ensures none { (result ≡ Err AskFault.NoSuchTable) ↔ ((self.now.run.waiting.items ≡ [])
            × HasNoTable self.now.run.engine.log.names.tables (option_map (λ name. name.now) name.entry)) }
        ensures lacks { result ≡ Err AskFault.NoSuchTable → TextLacksTable self.now (option_map (λ name. name.now) name.entry) }
        // Lines wait only where a call of `step` or `finish` ended in a fault.
        ensures waiting { (result ≡ Err AskFault.Waiting) ↔ (0 < length self.now.run.waiting.items) }
    {
        let engine = self.engine_run()?;
        put_rows_there(alloc, text, engine, name)?;
        Ok(())
    }

    /// Who holds a kind on the table of a name after the reported places, as `privileges_text::holders_text` writes it, appended to an empty text.
    /// After `NoMemory` some of it may be in the text.
    pub fn holders(
        &self,
        alloc: Global,
        kind: Kind,
        name: &str,
        text: &mut Vec<u8>,
    ) -> Result<(), AskFault>
        requires { text.old.items ≡ [] }
        // It is who holds the kind in each text that begins with what was taken.
        ensures told { OnOk result (TextListsHolders self.now kind name.now text.new.items) }
        // NoSuchTable comes exactly where no reported statement creates a table of the name.
        ensures none { (result ≡ Err AskFault.NoSuchTable) ↔ ((self.now.run.waiting.items ≡ [])
            × (known_number self.now.run.engine.log.names.tables name.now ≡ None)) }
        ensures lacks { result ≡ Err AskFault.NoSuchTable → TextLacksTable self.now (Some name.now) }
        // Lines wait only where a call of `step` or `finish` ended in a fault.
        ensures waiting { (result ≡ Err AskFault.Waiting) ↔ (0 < length self.now.run.waiting.items) }
    {
        let engine = self.engine_run()?;
        put_holders(alloc, text, engine, kind, name)?;
        Ok(())
    }

    /// How many lines were reported, with a heading, which has no line of the report.
    pub fn lines(&self) -> u64
        ensures { result ≡ self.now.run.lines }
    {
        self.run.lines()
    }

    /// How many statements were accepted: the next place.
    pub fn places(&self) -> Place
        ensures { result ≡ length self.now.run.engine.log.statements }
    {
        self.run.engine().log().len()
    }

    /// How many bytes of the report wait to be given.
    pub fn waiting(&self) -> usize
        ensures { result ≡ length (unsent self.now) }
    {
        self.run.pending.len() - self.sent
    }

    /// The bytes of the report that wait to be given.
    fn rest(&self) -> &[u8]
        ensures { result.now ≡ unsent self.now }
    {
        &self.run.pending[self.sent..]
    }

    /// Gives as many waiting bytes as there is room for after the first `made` bytes of `out`, and returns how many bytes of it are made
    /// then.
    fn give(&mut self, out: &mut [u8], made: usize) -> usize
        requires { made ≤ length out.old }
        ensures gives { Gives self.old self.new out.old out.new made result }
        ensures full { result < length out.old → unsent self.new ≡ [] }
        ensures order { self.new.run ≡ self.old.run }
        ensures begun { self.new.begun.items ≡ self.old.begun.items }
        ensures keep { self.new.keep ≡ self.old.keep }
    {
        let rest = self.rest();
        let count = rest.len().min(out.len() - made);
        out[made..made + count].copy_from_slice(&rest[..count]);
        self.sent += count;
        made + count
    }

    /// Runs the lines that wait, and makes the report's lines for them. All of those before were given. On `Err` the lines wait still.
    fn settle(&mut self, alloc: Global) -> Result<(), FeedFault>
        requires { unsent self.old ≡ [] }
        ensures stands { (input written : List ℕ) → IsFed self.old input written → IsFed self.new input written }
        ensures none { OnOk result (self.new.run.waiting.items ≡ []) }
        ensures nothing { OnErr result (unsent self.new ≡ []) }
        ensures open { result ≡ Err FeedFault.Ended → ⊥ }
        ensures counted { result ≡ Err FeedFault.Full → 2 ^ 64 ≤ next_line self.new.run }
        ensures begun { self.new.begun.items ≡ self.old.begun.items }
        ensures ended { self.new.is_ended ≡ self.old.is_ended }
        ensures keep { self.new.keep ≡ self.old.keep }
    {
        if self.run.waiting() == 0 {
            return Ok(());
        }
        let runner = Runner::keeping_last(&Alone, alloc, self.keep);
        self.sent = 0;
        self.run.pending.clear();
        self.run.report(&runner)?;
        Ok(())
    }

    /// Runs the lines that wait, as `settle`, and gives bytes of the report's lines for them, as `give`. On `Err` it gives none.
    fn make(&mut self, alloc: Global, out: &mut [u8], made: usize) -> Result<usize, FeedFault>
        requires none { unsent self.old ≡ [] }
        requires made { made ≤ length out.old }
        ensures gives { IfOk result (λ now. Gives self.old self.new out.old out.new made now) }
        ensures settled { IfOk result (λ now. IsGivenOut self.new out.new now) }
        ensures stands { OnErr result (Gives self.old self.new out.old out.new made made) }
        ensures nothing { OnErr result (unsent self.new ≡ []) }
        ensures open { result ≡ Err FeedFault.Ended → ⊥ }
        ensures counted { result ≡ Err FeedFault.Full → 2 ^ 64 ≤ next_line self.new.run }
        ensures begun { self.new.begun.items ≡ self.old.begun.items }
        ensures keep { self.new.keep ≡ self.old.keep }
    {
        self.settle(alloc)?;
        Ok(self.give(out, made))
    }

    /// Gives what waits, and once all of that was given makes the lines that wait, as `make`.
    fn start(&mut self, alloc: Global, out: &mut [u8], step: &mut Step) -> Result<(), FeedFault>
        ensures gives { Gives self.old self.new out.old out.new 0 step.new.made }
        ensures used { step.new.used ≡ step.old.used }
        ensures settled { OnOk result (IsGivenOut self.new out.new step.new.made) }
        ensures nothing { OnErr result (unsent self.new ≡ []) }
        ensures open { result ≡ Err FeedFault.Ended → ⊥ }
        ensures counted { result ≡ Err FeedFault.Full → 2 ^ 64 ≤ next_line self.new.run }
        ensures begun { self.new.begun.items ≡ self.old.begun.items }
        ensures keep { self.new.keep ≡ self.old.keep }
    {
        step.made = self.give(out, 0);
        if self.waiting() > 0 {
            return Ok(());
        }
        step.made = self.make(alloc, out, step.made)?;
        Ok(())
    }

    /// Takes the line that has begun, if one has, and these bytes, which end the line.
    #[inline(always)]
    fn take_line<'a>(
        &mut self,
        alloc: Global,
        end: &'a [u8],
        raw: &mut LineBuffers<'a>,
    ) -> Result<(), FeedFault>
        requires short { length end.now ≤ KEPT_BYTES }
        requires room { HasRoomForLine (plan_in_order (last_places self.old.keep)) self.old.run }
        ensures ok { OnOk result ((line : List ℕ) → self.old.begun.items ≡ take KEPT_BYTES line → (reading : ParsedLine)
            × (ReadsAs (next_line self.old.run == 1) (log_names self.old.run).version (take KEPT_BYTES (line ++ end.now)) reading
            × Takes reading self.old.run self.new.run)) }
        ensures begun { OnOk result (self.new.begun.items ≡ []) }
        ensures still { OnErr result (TakesNothing self.old.run self.new.run) }
        ensures kept { OnErr result (self.new.begun.items ≡ self.old.begun.items) }
        ensures open { result ≡ Err FeedFault.Ended → ⊥ }
        ensures counted { result ≡ Err FeedFault.Full → 2 ^ 64 ≤ next_line self.new.run }
        ensures unsent { unsent self.new ≡ unsent self.old }
        ensures ended { self.new.is_ended ≡ self.old.is_ended }
        ensures keep { self.new.keep ≡ self.old.keep }
    {
        if !self.run.may_count() {
            return Err(FeedFault::Full);
        }
        if self.begun.is_empty() {
            self.run.take(end, raw)?;
            return Ok(());
        }
        let before = self.begun.len();
        keep_more(&mut self.begun, end)?;
        match self.run.take_alone(alloc, &self.begun) {
            Ok(()) => {
                self.begun.clear();
                Ok(())
            }
            Err(_refused) => {
                self.begun.truncate(before);
                Err(FeedFault::NoMemory)
            }
        }
    }

    /// Takes the first line of the bytes, or all of them where no line is whole, and returns how many bytes it took. On `Err` it took none.
    #[inline(always)]
    fn take<'a>(
        &mut self,
        alloc: Global,
        bytes: &'a [u8],
        raw: &mut LineBuffers<'a>,
    ) -> Result<usize, FeedFault>
        requires some { 0 < length bytes.now }
        requires open { self.old.is_ended ≡ false }
        requires room { HasRoomForLine (plan_in_order (last_places self.old.keep)) self.old.run }
        ensures count { IfOk result (λ n. (0 < n) × (n ≤ length bytes.now)) }
        ensures stands { IfOk result (λ n. (input written : List ℕ) → IsFed self.old input written
            → IsFed self.new (input ++ take n bytes.now) written) }
        ensures err { OnErr result ((input written : List ℕ) → IsFed self.old input written → IsFed self.new input written) }
        ensures open { result ≡ Err FeedFault.Ended → ⊥ }
        ensures counted { result ≡ Err FeedFault.Full → 2 ^ 64 ≤ next_line self.new.run }
        ensures unsent { unsent self.new ≡ unsent self.old }
        ensures ended { self.new.is_ended ≡ self.old.is_ended }
        ensures keep { self.new.keep ≡ self.old.keep }
    {
        match cut_line(bytes) {
            None => {
                keep_more(&mut self.begun, bytes)?;
                Ok(bytes.len())
            }
            Some((line, count)) => {
                self.take_line(alloc, line, raw)?;
                Ok(count)
            }
        }
    }

    /// Takes lines of the input from the bytes that were used on, until enough wait to be run at once or no byte is left, and counts the
    /// bytes.
    fn take_lines<'a>(
        &mut self,
        alloc: Global,
        input: &'a [u8],
        raw: &mut LineBuffers<'a>,
        step: &mut Step,
    ) -> Result<(), FeedFault>
        requires open { self.old.is_ended ≡ false }
        requires within { step.old.used ≤ length input.now }
        ensures takes { TakesBytes input.now self.old self.new step.old.used step.new.used }
        ensures some { OnOk result (self.old.run.waiting.items ≡ [] → step.old.used < length input.now → step.old.used < step.new.used) }
        ensures made { step.new.made ≡ step.old.made }
        ensures open { result ≡ Err FeedFault.Ended → ⊥ }
        ensures counted { result ≡ Err FeedFault.Full → 2 ^ 64 ≤ next_line self.new.run }
        ensures unsent { unsent self.new ≡ unsent self.old }
        ensures ended { self.new.is_ended ≡ self.old.is_ended }
        ensures keep { self.new.keep ≡ self.old.keep }
    {
        let runner = Runner::keeping_last(&Alone, alloc, self.keep);
        'lines: while step.used < input.len() && self.run.has_room(&runner) {
            step.used += self.take(alloc, &input[step.used..], raw)?;
        }
        Ok(())
    }

    /// Takes bytes and gives bytes, as `step`, and counts both. Nothing is counted before.
    fn feed(
        &mut self,
        alloc: Global,
        input: &[u8],
        out: &mut [u8],
        step: &mut Step,
    ) -> Result<(), FeedFault>
        requires open { self.old.is_ended ≡ true → input.now ≡ [] }
        requires used { step.old.used ≡ 0 }
        ensures len { length out.new ≡ length out.old }
        ensures feeds { Feeds input.now out.new self.old self.new step.new.used step.new.made }
        ensures settled { OnOk result (IsGivenOut self.new out.new step.new.made) }
        ensures all { OnOk result (unsent self.new ≡ [] → step.new.used ≡ length input.now) }
        ensures nothing { OnErr result (unsent self.new ≡ []) }
        ensures open { result ≡ Err FeedFault.Ended → ⊥ }
        ensures counted { result ≡ Err FeedFault.Full → 2 ^ 64 ≤ next_line self.new.run }
        ensures keep { self.new.keep ≡ self.old.keep }
    {
        self.start(alloc, out, step)?;
        let mut raw = LineBuffers::new(alloc);
        'lines: while step.used < input.len() && self.waiting() == 0 {
            self.take_lines(alloc, input, &mut raw, step)?;
            step.made = self.make(alloc, out, step.made)?;
        }
        Ok(())
    }

    /// Takes bytes of the log from `input` and gives bytes of its report into `out`, until all is taken or `out` is full. After `NoMemory`
    /// nothing is lost, and the call may be made again with the rest.
    pub fn step(
        &mut self,
        alloc: Global,
        input: &[u8],
        out: &mut [u8],
    ) -> (Step, Result<(), FeedFault>)
        ensures used { result.0.used ≤ length input.now }
        ensures made { result.0.made ≤ length out.old }
        ensures full { OnOk result.1 (result.0.used < length input.now → result.0.made ≡ length out.old) }
        // A run that was given a text and gave what is written was now given what was taken too, and gave what was given.
        ensures stands { (text written : List ℕ) → IsFed self.old text written
            → IsFed self.new (text ++ take result.0.used input.now) (written ++ take result.0.made out.new) }
        // While there is room, no line waits that was taken.
        ensures prompt { OnOk result.1 (IsGivenOut self.new out.new result.0.made) }
        // When out of memory, what was given is whole lines.
        ensures lines { IfErr result.1 (λ fault. (fault ≡ FeedFault.Ended → ⊥) → unsent self.new ≡ []) }
        ensures ended { (result.1 ≡ Err FeedFault.Ended) ↔ (self.old.is_ended ≡ true) }
        ensures still { result.1 ≡ Err FeedFault.Ended
            → (self.new ≡ self.old) × (out.new ≡ out.old) × (result.0.used ≡ 0) × (result.0.made ≡ 0) }
        ensures open { self.new.is_ended ≡ self.old.is_ended }
        // Full comes only where one line more couldn't be counted.
        ensures counted { result.1 ≡ Err FeedFault.Full → 2 ^ 64 ≤ next_line self.new.run }
        // As many of the last places are to be kept as before.
        ensures keep { self.new.keep ≡ self.old.keep }
    {
        let mut step = Step { used: 0, made: 0 };
        if self.is_ended {
            return (step, Err(FeedFault::Ended));
        }
        let done = self.feed(alloc, input, out, &mut step);
        (step, done)
    }

    /// Takes the line that has begun, once the text was ended, and gives bytes, as `finish`.
    fn end(&mut self, alloc: Global, out: &mut [u8], step: &mut Step) -> Result<(), FeedFault>
        requires ended { self.old.is_ended ≡ true }
        requires used { step.old.used ≡ 0 }
        ensures len { length out.new ≡ length out.old }
        ensures feeds { Feeds [] out.new self.old self.new step.new.used step.new.made }
        ensures settled { OnOk result (IsGivenOut self.new out.new step.new.made) }
        ensures none { OnOk result (unsent self.new ≡ [] → self.new.begun.items ≡ []) }
        ensures nothing { OnErr result (unsent self.new ≡ []) }
        ensures open { result ≡ Err FeedFault.Ended → ⊥ }
        ensures counted { result ≡ Err FeedFault.Full → 2 ^ 64 ≤ next_line self.new.run }
        ensures keep { self.new.keep ≡ self.old.keep }
    {
        self.feed(alloc, &[], out, step)?;
        if self.waiting() > 0 {
            return Ok(());
        }
        if self.begun.is_empty() {
            return Ok(());
        }
        let mut raw = LineBuffers::new(alloc);
        self.take_line(alloc, &[], &mut raw)?;
        step.made = self.make(alloc, out, step.made)?;
        Ok(())
    }

    /// Ends the text, so that bytes after its last LF are a line too, and gives bytes of the report into `out`. Where it fills less than
    /// `out`, that was all, and the report is whole; else call it again. It returns how many bytes it gave, and the same faults as `step`
    /// but `Ended`.
    pub fn finish(&mut self, alloc: Global, out: &mut [u8]) -> (usize, Result<(), FeedFault>)
        ensures made { result.0 ≤ length out.old }
        ensures stands { (text written : List ℕ) → IsFed self.old text written → IsFed self.new text (written ++ take result.0 out.new) }
        // Once it leaves room, all that was given is the report of all that was taken.
        ensures report { OnOk result.1 (result.0 < length out.old → (text written : List ℕ) → IsFed self.old text written
            → IsReport text (written ++ take result.0 out.new)) }
        ensures lines { OnErr result.1 (unsent self.new ≡ []) }
        ensures open { result.1 ≡ Err FeedFault.Ended → ⊥ }
        ensures counted { result.1 ≡ Err FeedFault.Full → 2 ^ 64 ≤ next_line self.new.run }
        ensures ended { self.new.is_ended ≡ true }
        ensures keep { self.new.keep ≡ self.old.keep }
    {
        self.is_ended = true;
        let mut step = Step { used: 0, made: 0 };
        let done = self.end(alloc, out, &mut step);
        (step.made, done)
    }
}

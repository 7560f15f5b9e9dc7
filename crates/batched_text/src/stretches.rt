//! A stretch of the buffered bytes: its lines are dealt with in order, while further threads read those of its later pieces.

ghost use Rattle.std.specs.Prelude.{◌≡◌, ◌≤◌, length};
ghost use Rattle.std.specs.Thread.{IsSync};
ghost use Rattle.sequencer.specs.Foretelling.{Begins};
ghost use Rattle.batched_text.specs.Foretold.{IsReadyAt, Runs, log_names};

use crate::buffered::Buffered;
use crate::foretold::{Room, report_foretold, report_until};
use crate::line_run::LineRun;
use crate::runner::{Alone, Runner};
use bohm_base::EngineFault;
use read_ahead::{Basis, Piece, Stretch};
use sequencer::Catalog;
use std::sync::Wait;
use std::thread;
use std::thread::Threads;

/// Bytes of the report after which a stretch is left, so that they are written.
const MOST_TEXT_BYTES: usize = 1 << 20;

/// How far a stretch goes, in how many pieces, and how many further threads read these.
#[derive(Clone, Copy)]
pub(crate) struct Extent {
    pub(crate) to: usize,
    pub(crate) pieces: usize,
    pub(crate) threads: usize,
}

/// A stretch of the buffered bytes, and the names by which its pieces are read.
#[derive(Drop)]
struct StretchAhead<'a, B: Basis> {
    names: &'a Catalog,
    buffered: Buffered<'a>,
    stretch: &'a Stretch<B>,
    ghost by_names: { names.now ≡ B.names },
    ghost of_bytes: { buffered.bytes.now ≡ B.bytes },
}

/// Deals with the lines up to the end of a piece, by what was found of them if it was read by now. Returns the index before which all is
/// dealt with then.
fn report_piece<'a, B: Basis>(
    runner: &Runner<Alone>,
    run: &mut LineRun,
    ahead: &StretchAhead<'a, B>,
    piece: usize,
    from: usize,
    room: &mut Room<'a>,
) -> Result<usize, EngineFault>
    requires alone { runner.now.plan.settings.workers ≡ 1 }
    requires names { Begins B.names (log_names run.old) }
    requires version { B.names.version ≡ (log_names run.old).version }
    requires within { from ≤ length ahead.now.buffered.bytes.now }
    requires ready { IsReadyAt runner.now.plan run.old ahead.now.buffered from }
    ensures { Runs runner.now.plan ahead.now.buffered from run.old run.new result }
{
    let stretch = ahead.stretch;
    let buffered = &ahead.buffered;
    let end = stretch.end_of(piece);
    let Some(read) = stretch.take(piece) else {
        return report_until(runner, run, buffered, from, end, &mut room.raw);
    };
    let (lines, count) = read.into_lines();
    let found = &lines[..count];
    let at = report_foretold(runner, run, buffered, found, from, room)?;
    stretch.give_back(Piece::over(lines));
    report_until(runner, run, buffered, at, end, &mut room.raw)
}

/// Deals with the lines of a stretch, piece by piece, as `report_piece`. Where a piece isn't read yet it reads others, as
/// `Stretch::read_until`. Where much is pending it leaves the stretch after a piece.
fn report_pieces<'a, B: Basis>(
    runner: &Runner<Alone>,
    run: &mut LineRun,
    ahead: &StretchAhead<'a, B>,
    room: &mut Room<'a>,
) -> Result<usize, EngineFault>
    requires alone { runner.now.plan.settings.workers ≡ 1 }
    requires begins { Begins B.names (log_names run.old) }
    requires version { B.names.version ≡ (log_names run.old).version }
    requires ready { IsReadyAt runner.now.plan run.old ahead.now.buffered 0 }
    ensures { Runs runner.now.plan ahead.now.buffered 0 run.old run.new result }
{
    let stretch = ahead.stretch;
    let mut at = 0;
    'turns: for piece in 0..stretch.len() {
        if run.pending.len() >= MOST_TEXT_BYTES {
            break;
        }
        stretch.pass(piece);
        stretch.read_until(ahead.names, ahead.buffered.bytes, piece);
        at = report_piece(runner, run, ahead, piece, at, room)?;
    }
    stretch.pass(stretch.len());
    Ok(at)
}

/// What a run of lines resulted in: what was dealt with, and the index before which all is dealt with.
#[derive(Drop)]
pub(crate) struct Ran {
    pub(crate) run: LineRun,
    pub(crate) result: Result<usize, EngineFault>,
}

/// Deals with the lines of a stretch, as `report_pieces`, with what was dealt with before passed in and out.
fn run_stretch<B: Basis>(runner: &Runner<Alone>, mut run: LineRun, ahead: &StretchAhead<B>) -> Ran
    requires alone { runner.now.plan.settings.workers ≡ 1 }
    requires begins { Begins B.names (log_names run) }
    requires version { B.names.version ≡ (log_names run).version }
    requires ready { IsReadyAt runner.now.plan run ahead.now.buffered 0 }
    ensures { Runs runner.now.plan ahead.now.buffered 0 run result.run result.result }
{
    let mut room = Room::new(runner.alloc);
    let result = report_pieces(runner, &mut run, ahead, &mut room);
    Ran { run, result }
}

/// Deals with the lines of a stretch, as `run_stretch`, while this many further threads read its pieces, as `Stretch::read_all`. Where no
/// thread can be started the caller reads them first.
fn run_beside<B: Basis + Send + Sync, T: Threads + Wait + Sync>(
    rt: &T,
    runner: &Runner<Alone>,
    run: LineRun,
    ahead: &StretchAhead<B>,
    threads: usize,
) -> Ran
    requires alone { runner.now.plan.settings.workers ≡ 1 }
    requires begins { Begins B.names (log_names run) }
    requires version { B.names.version ≡ (log_names run).version }
    requires ready { IsReadyAt runner.now.plan run ahead.now.buffered 0 }
    ensures { Runs runner.now.plan ahead.now.buffered 0 run result.run result.result }
{
    if threads == 0 {
        return run_stretch(runner, run, ahead);
    }
    let fewer = threads - 1;
    let (alloc, plan) = (runner.alloc, runner.plan);
    let (names, stretch) = (ahead.names, ahead.stretch);
    let Buffered { bytes, given } = ahead.buffered;
    let (_, ran) = thread::join(
        rt,
        move || -> ()
            requires { (names.now ≡ B.names) × (bytes.now ≡ B.bytes) }
        { stretch.read_all(names, bytes) },
        move || -> Ran
            requires { IsSync T.row × (plan.settings.workers ≡ 1) × (names.now ≡ B.names) × (bytes.now ≡ B.bytes)
                × Begins B.names (log_names run) × (B.names.version ≡ (log_names run).version)
                × IsReadyAt plan run (record { bytes = bytes; given = given }) 0 }
            ensures { Runs plan (record { bytes = bytes.entry; given = given }) 0 run result.run result.result }
        {
            let runner = Runner {
                executor: &Alone,
                alloc,
                plan,
            };
            let buffered = Buffered { bytes, given };
            let ahead = StretchAhead {
                names,
                buffered,
                stretch,
            };
            run_beside(rt, &runner, run, &ahead, fewer)
        },
    );
    ran
}

/// Deals with the lines at the front of the bytes, as `run_beside`, read before their turn by these names in the spare pieces. Returns the
/// pieces that may be filled again. Out of memory for them, nothing is dealt with.
pub(crate) fn run_ahead<B: Basis + Send + Sync, T: Threads + Wait + Sync>(
    rt: &T,
    runner: &Runner<Alone>,
    run: LineRun,
    names: &Catalog,
    buffered: &Buffered,
    extent: &Extent,
    spare: Vec<Piece>,
) -> (Ran, Vec<Piece>)
    requires alone { runner.now.plan.settings.workers ≡ 1 }
    requires within { extent.now.to ≤ length buffered.now.bytes.now }
    requires names { names.now ≡ B.names }
    requires bytes { buffered.now.bytes.now ≡ B.bytes }
    requires begins { Begins B.names (log_names run) }
    requires version { B.names.version ≡ (log_names run).version }
    requires ready { IsReadyAt runner.now.plan run buffered.now 0 }
    ensures { Runs runner.now.plan buffered.now 0 run result.0.run result.0.result }
{
    let Ok(stretch) = Stretch::<B>::new(
        runner.alloc,
        buffered.bytes,
        extent.to,
        extent.pieces,
        spare,
    ) else {
        let ran = Ran { run, result: Ok(0) };
        return (ran, Vec::new(runner.alloc));
    };
    let ahead = StretchAhead {
        names,
        buffered: *buffered,
        stretch: &stretch,
    };
    let ran = run_beside(rt, runner, run, &ahead, extent.threads);
    (ran, stretch.into_spare())
}

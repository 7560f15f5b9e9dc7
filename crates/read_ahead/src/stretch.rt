//! A stretch of the buffered bytes, whose pieces are read before their turn by whichever thread comes first.

ghost use Rattle.std.specs.Prelude.{◌≡◌, ◌<◌, ◌≤◌, ℕ, [], All, IfOk, IfSome, List, length, max, vec_len};
ghost use Rattle.sequencer.specs.Catalog.{Names, no_names};
ghost use Rattle.read_ahead.specs.Ahead.{IsAhead};

use crate::ahead::Ahead;
use crate::cutting::piece_cuts;
use crate::piece::Piece;
use crate::reading::foretell_lines;
use sequencer::Catalog;
use std::alloc::{AllocError, Global};
use std::hint;
use std::marker::{Brand, PhantomData};
use std::sync::Mutex;
use std::sync::atomic::Ordering::SeqCst;
use std::sync::atomic::{AtomicBool, AtomicUsize};

/// How often a thread looks whether a piece was read, before it goes on without.
const MOST_LOOKS: usize = 4096;

// A thread that waits for another reads the line itself after a moment.
const _: () = prove!(MOST_LOOKS <= 65_536);

/// The bytes that are read before their turn, and the names by which they are: a call picks both.
pub trait Basis {
    ghost names: { Names };

    ghost bytes: { List ℕ };
}

impl Basis for Brand {
    ghost names = { no_names };

    ghost bytes = { [] };
}

/// A piece whose lines are of these bytes, and were read by these names.
#[derive(Drop)]
struct ReadPiece<B: Basis> {
    piece: Piece,
    of: PhantomData<B>,
    ghost ahead: { All (IsAhead B.names B.bytes) piece },
}

impl<B: Basis> ReadPiece<B> {
    /// The piece with what is known of it.
    fn new(piece: Piece) -> Self
        requires { All (IsAhead B.names B.bytes) piece }
    {
        ReadPiece {
            piece,
            of: PhantomData,
        }
    }
}

/// Where a piece is kept, once it was read and until it is run.
#[derive(Drop)]
struct Place<B: Basis> {
    /// Whether the piece was read. A thread that waits for it looks here and not at the lock, which is free for the one that reads.
    is_read: AtomicBool,
    read: Mutex<Option<ReadPiece<B>>>,
}

/// Pieces that were run, and are filled again.
#[derive(Drop)]
struct SparePieces {
    pieces: Vec<Piece>,
    /// How many of them are kept at most.
    most: usize,
    ghost few: { vec_len pieces ≤ most },
}

impl SparePieces {
    /// These pieces, with up to this many.
    fn new(pieces: Vec<Piece>, most: usize) -> Self
        ensures { result.most ≡ max most (vec_len pieces) }
    {
        SparePieces {
            most: most.max(pieces.len()),
            pieces,
        }
    }

    /// Keeps a piece, unless as many are kept as there may be.
    fn keep(&mut self, piece: Piece)
        ensures { self.new.most ≡ self.old.most }
    {
        if self.pieces.len() < self.most {
            let _pushed = self.pieces.push(piece);
        }
    }

    /// The piece that was kept last, if there is one.
    fn take(&mut self) -> Option<Piece>
        ensures { self.new.most ≡ self.old.most }
    {
        self.pieces.pop()
    }

    fn into_pieces(self) -> Vec<Piece> {
        let SparePieces { pieces, .. } = self;
        pieces
    }
}

/// The pieces of a stretch. Threads share it by reference: each takes up a piece that no other has taken up, while one of them runs the
/// lines in order, by what was found of those of a piece if it was read by then.
#[derive(Drop)]
pub struct Stretch<B: Basis> {
    /// Where each piece begins, and where the last one ends.
    cuts: Vec<usize>,
    /// Each piece.
    pieces: Vec<Place<B>>,
    /// The first piece that no thread has taken up.
    next: AtomicUsize,
    /// How many pieces are run: they need not be read any more.
    passed: AtomicUsize,
    spare: Mutex<SparePieces>,
    alloc: Global,
    ghost within: { All (λ cut. cut ≤ length B.bytes) cuts.items },
}

/// Room for this many pieces, none of which is read.
fn unread<B: Basis>(alloc: Global, count: usize) -> Result<Vec<Place<B>>, AllocError> {
    let mut pieces = Vec::new(alloc);
    for _ in 0..count {
        pieces.push(Place {
            is_read: AtomicBool::new(false),
            read: Mutex::new(None),
        })?;
    }
    Ok(pieces)
}

impl<B: Basis> Stretch<B> {
    /// The bytes before an index, in this many pieces of about one length. The spare pieces are filled.
    pub fn new(
        alloc: Global,
        bytes: &[u8],
        to: usize,
        count: usize,
        spare: Vec<Piece>,
    ) -> Result<Self, AllocError>
        requires within { to ≤ length bytes.now }
        requires bytes { bytes.now ≡ B.bytes }
    {
        let cuts = piece_cuts(alloc, bytes, 0, to, count)?;
        let pieces = unread(alloc, cuts.len() - 1)?;
        let spare = SparePieces::new(spare, pieces.len());
        Ok(Stretch {
            cuts,
            pieces,
            next: AtomicUsize::new(0),
            passed: AtomicUsize::new(0),
            spare: Mutex::new(spare),
            alloc,
        })
    }

    /// How many pieces there are.
    pub fn len(&self) -> usize {
        self.pieces.len()
    }

    /// Where a cut is, or 0 if there is none of this number.
    fn cut(&self, number: usize) -> usize
        ensures { result ≤ length B.bytes }
    {
        match self.cuts.get(number) {
            Some(cut) => *cut,
            None => 0,
        }
    }

    /// Where a piece ends.
    pub fn end_of(&self, piece: usize) -> usize
        ensures { result ≤ length B.bytes }
    {
        self.cut(piece.saturating_add(1))
    }

    /// Takes a piece, if it was read by now: what was found of its lines.
    pub fn take(&self, piece: usize) -> Option<Piece>
        ensures { IfSome result (λ lines. All (IsAhead B.names B.bytes) lines) }
    {
        let mut place = self.pieces.get(piece)?.read.try_lock()?;
        let read = place.take()?;
        Some(read.piece)
    }

    /// Gives a piece back that was run, which is filled again unless as many wait for that as a stretch has: a thread that finds the lock
    /// taken makes a new one, so that they would grow in number with the log.
    pub fn give_back(&self, piece: Piece) {
        if let Some(mut spare) = self.spare.try_lock() {
            spare.keep(piece);
        }
    }

    /// The piece that is filled next: one that was run, or a new one.
    fn empty_piece(&self) -> Piece {
        if let Some(mut spare) = self.spare.try_lock() {
            if let Some(piece) = spare.take() {
                return piece;
            }
        }
        Piece::new(self.alloc)
    }

    /// Keeps a piece that was read until it is run.
    fn keep(&self, piece: usize, read: Piece)
        requires { All (IsAhead B.names B.bytes) read }
    {
        if let Some(place) = self.pieces.get(piece) {
            if let Some(mut kept) = place.read.try_lock() {
                *kept = Some(ReadPiece::new(read));
            }
            place.is_read.store(true, SeqCst);
        }
    }

    /// Whether a piece was read.
    fn is_read(&self, piece: usize) -> bool {
        match self.pieces.get(piece) {
            Some(place) => place.is_read.load(SeqCst),
            None => false,
        }
    }

    /// Tells that the pieces before this one need not be read any more.
    pub fn pass(&self, piece: usize) {
        self.passed.store(piece, SeqCst);
    }

    /// Takes up a piece that no thread has taken up, and reads it by these names if it isn't passed. False where none is left.
    pub fn read_next(&self, names: &Catalog, bytes: &[u8]) -> bool
        requires names { names.now ≡ B.names }
        requires bytes { bytes.now ≡ B.bytes }
    {
        let piece = self.next.fetch_add(1, SeqCst);
        if piece >= self.pieces.len() {
            return false;
        }
        if piece >= self.passed.load(SeqCst) {
            let (from, to) = (self.cut(piece), self.end_of(piece));
            let read = foretell_lines(self.alloc, names, bytes, from, to, self.empty_piece());
            self.keep(piece, read);
        }
        true
    }

    /// Reads pieces, as `read_next`, until this one was read. Where none is left to be taken up it waits for a moment.
    pub fn read_until(&self, names: &Catalog, bytes: &[u8], piece: usize)
        requires names { names.now ≡ B.names }
        requires bytes { bytes.now ≡ B.bytes }
    {
        'pieces: for _ in 0..self.pieces.len() {
            if self.is_read(piece) || !self.read_next(names, bytes) {
                break;
            }
        }
        self.wait_for(piece);
    }

    /// Waits for a moment, or until a piece was read.
    fn wait_for(&self, piece: usize) {
        'looks: for _ in 0..MOST_LOOKS {
            if self.is_read(piece) {
                break;
            }
            hint::spin_loop();
        }
    }

    /// Reads pieces, as `read_next`, until none is left.
    pub fn read_all(&self, names: &Catalog, bytes: &[u8])
        requires names { names.now ≡ B.names }
        requires bytes { bytes.now ≡ B.bytes }
    {
        'pieces: for _ in 0..self.pieces.len() {
            if !self.read_next(names, bytes) {
                break;
            }
        }
    }

    /// The pieces that were run, whose lists may be filled again.
    pub fn into_spare(self) -> Vec<Piece> {
        let Stretch { spare, .. } = self;
        spare.into_inner().into_pieces()
    }
}

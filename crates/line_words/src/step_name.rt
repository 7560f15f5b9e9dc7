//! The words that name a step.
ghost use Rattle.std.specs.Prelude.{◌≡◌};

use model_base::Operation;

/// Which step.
#[derive(Clone, Copy)]
pub enum StepName {
    Const,
    Compute(Operation),
    Has,
    Load,
    Store,
    Insert,
    Delete,
    Check,
    Skip,
    Out,
}

impl StepName {
    ghost use Rattle.std.specs.Prelude.{◌<◌, IfSome, length, slice_index_or, take};
    ghost use Rattle.line_words.specs.StepWords.{step_name, step_word};

    /// The step that a word names.
    #[cold]
    #[inline(never)]
    #[tactic(auto, using(crate::proofs::StepLetters::named_insert, crate::proofs::StepLetters::named_delete))]
    pub fn of(word: &[u8]) -> Option<StepName>
        ensures { result ≡ step_name word.now }
    {
        match word {
            b"CONST" => Some(StepName::Const),
            b"ADD" => Some(StepName::Compute(Operation::Add)),
            b"SUB" => Some(StepName::Compute(Operation::Sub)),
            b"MUL" => Some(StepName::Compute(Operation::Mul)),
            b"LESS" => Some(StepName::Compute(Operation::Less)),
            b"SAME" => Some(StepName::Compute(Operation::Same)),
            b"HAS" => Some(StepName::Has),
            b"LOAD" => Some(StepName::Load),
            b"STORE" => Some(StepName::Store),
            b"INSERT" => Some(StepName::Insert),
            b"DELETE" => Some(StepName::Delete),
            b"CHECK" => Some(StepName::Check),
            b"SKIP" => Some(StepName::Skip),
            b"OUT" => Some(StepName::Out),
            _ => None,
        }
    }

    /// The step with whose word and a space a text begins. Of fewer than five bytes it says none, and of fewer than seven none whose word
    /// has five bytes or six.
    #[inline(always)]
    pub(crate) fn at_front(text: &[u8]) -> Option<StepName>
        ensures within { IfSome result (λ s. length (step_word s) < length text.now) }
        ensures word { IfSome result (λ s. take (length (step_word s)) text.now ≡ step_word s) }
        ensures space { IfSome result (λ s. slice_index_or text.now (length (step_word s)) 0 ≡ 32) }
    {
        if text.len() < 5 {
            return None;
        }
        let front = u32::from_le_bytes([text[0], text[1], text[2], text[3]]);
        match front {
            0x2044_4441 => Some(StepName::Compute(Operation::Add)),
            0x2042_5553 => Some(StepName::Compute(Operation::Sub)),
            0x204c_554d => Some(StepName::Compute(Operation::Mul)),
            0x2054_554f => Some(StepName::Out),
            0x2053_4148 => Some(StepName::Has),
            0x4441_4f4c if text[4] == b' ' => Some(StepName::Load),
            0x5353_454c if text[4] == b' ' => Some(StepName::Compute(Operation::Less)),
            0x454d_4153 if text[4] == b' ' => Some(StepName::Compute(Operation::Same)),
            0x5049_4b53 if text[4] == b' ' => Some(StepName::Skip),
            0x534e_4f43 if text.len() >= 7 && text[4] == b'T' && text[5] == b' ' => Some(
                StepName::Const,
            ),
            0x524f_5453 if text.len() >= 7 && text[4] == b'E' && text[5] == b' ' => Some(
                StepName::Store,
            ),
            0x4345_4843 if text.len() >= 7 && text[4] == b'K' && text[5] == b' ' => Some(
                StepName::Check,
            ),
            0x4553_4e49
                if text.len() >= 7 && text[4] == b'R' && text[5] == b'T' && text[6] == b' ' => {
                Some(StepName::Insert)
            }
            0x454c_4544
                if text.len() >= 7 && text[4] == b'T' && text[5] == b'E' && text[6] == b' ' => {
                Some(StepName::Delete)
            }
            _ => None,
        }
    }

    /// How many bytes its word has.
    #[inline(always)]
    pub(crate) fn len(self) -> usize
        ensures { result ≡ length (step_word self) }
    {
        match self {
            StepName::Compute(Operation::Less) | StepName::Compute(Operation::Same) => 4,
            StepName::Compute(_) | StepName::Has | StepName::Out => 3,
            StepName::Load | StepName::Skip => 4,
            StepName::Const | StepName::Store | StepName::Check => 5,
            StepName::Insert | StepName::Delete => 6,
        }
    }
}

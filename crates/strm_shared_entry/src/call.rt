//! The outcome of a call on a stream that keeps its history, and of a message that comes in.
ghost use Rattle.std.specs.Prelude.{◌≡◌};
ghost use Rattle.strm_shared_entry.specs.Called.{has_receipt, is_done};

use crate::receipt::Receipt;
use arrayvec::ArrayVec;
use strm_head_calls::{Answer, Call};
use strm_module::MOST_MODULES;
use strm_msg::Message;

/// The outcome of a call on a stream that keeps its history. `P` is a module of a kind of `K`. `A` is the
/// copy of the answer that its caller has in addition to the history: an equal one, or nothing.
#[derive(Drop)]
pub enum Called<P, K, A = Answer> {
    /// It was made, and is in the history.
    Done {
        /// The answer, which the history has too.
        answer: A,
        /// The modules that come back, each as `Some`: that of a push that was refused, or those that
        /// were taken out, topmost first.
        back: ArrayVec<Option<P>, MOST_MODULES>,
        /// The receipt, which shows the call's entry in the history. It is not proved that there is one.
        /// Where a cell did not take the entry there is none. No test has met this. A shared stream then does
        /// not end without a fault.
        receipt: Option<Receipt<K>>,
    },
    /// It was not made: memory ran out for its entry in the history, or, on a shared stream, the seat can
    /// count no more calls. Nothing was changed, and here it is again.
    NoRoom(Call<P>),
}

impl<P, K, A> Called<P, K, A> {
    /// Whether it was made.
    pub fn is_done(&self) -> bool
        ensures { result ≡ is_done self.now }
    {
        match self {
            Called::Done { .. } => true,
            Called::NoRoom(_) => false,
        }
    }

    /// Whether it was made and has a receipt.
    pub fn has_receipt(&self) -> bool
        ensures { result ≡ has_receipt self.now }
    {
        match self {
            Called::Done { receipt, .. } => receipt.is_some(),
            Called::NoRoom(_) => false,
        }
    }
}

/// The outcome of a message that comes in from a line.
#[derive(Drop)]
pub enum Landed {
    /// It came in, and is in the history.
    Entered,
    /// It cannot come in. Nothing was changed, and here it is again.
    Full(Message),
    /// It did not come in, as memory ran out. Nothing was changed, and here it is again.
    NoMem(Message),
}

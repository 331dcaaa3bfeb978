//! The reasons for which a text spells no order.
ghost use Rattle.std.specs.Prelude.{◌≡◌, Some};
ghost use Rattle.strm_script_orders.specs.Fault.{order_cause_text, order_fault_text};

use std::fmt;
use strm_msg::NoMem;
use thiserror::Error;

/// The cause of a fault of a spelt order.
#[derive(Clone, Copy, Debug, PartialEq, Eq)]
pub enum OrderCause {
    /// No process has this name, and no feed.
    Unknown,
    /// The process or the feed has no step left.
    NoneLeft,
    /// The next call of the process awaits a feed that has a message left.
    Waits,
    /// The order ends, and steps are left over.
    Ended,
    /// Out of memory. It says nothing of the order.
    NoMemory,
}

impl OrderCause {
    /// The text of the cause, as it is printed.
    pub fn text(self) -> &'static str
        ensures { result.now ≡ order_cause_text self }
    {
        match self {
            OrderCause::Unknown => "no process or feed of this name",
            OrderCause::NoneLeft => "no step left",
            OrderCause::Waits => "awaits a feed",
            OrderCause::Ended => "steps are left over",
            OrderCause::NoMemory => "no memory",
        }
    }
}

/// The reason for which a text spells no order: the first step with a fault, and its cause.
#[derive(Clone, Copy, Debug, PartialEq, Eq, Error)]
pub struct OrderFault {
    /// The step, counted from 1. It is 0 for a fault of memory.
    pub step: u64,
    /// The cause of the fault.
    pub cause: OrderCause,
}

/// Printed as `step N: TEXT`, with the text of the cause.
impl fmt::Display for OrderFault {
    ghost output = { λ fault. Some (order_fault_text fault) };

    fn fmt<W: fmt::Write>(&self, f: &mut fmt::Formatter<W>) -> fmt::Result {
        let text = self.cause.text();
        write!(f, "step {}: {text}", self.step)
    }
}

impl From<NoMem> for OrderFault {
    ghost use Rattle.std.specs.Prelude.{◌≡◌};
    ghost use Rattle.strm_script_orders.specs.declared.fault.OrderCause.TheVariants as Causes;

    ghost from_gives = { λ _ fault. fault ≡ record { step = 0; cause = Causes.NoMemory } };

    fn from(_: NoMem) -> Self {
        OrderFault {
            step: 0,
            cause: OrderCause::NoMemory,
        }
    }
}

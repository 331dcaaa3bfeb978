//! A seat of a caller, with the receipts of its calls.
ghost use Rattle.std.specs.Prelude.{◌≡◌, All, length, map, take, IfOk, IfSome, OnOk, Some};
ghost use Rattle.strm_run_callers.specs.Account.{fresh_account, HasReceipts, IsNextInScript, CountsOne};
ghost use Rattle.strm_run_callers.specs.Carrying.{IsCarried, IsFreshCarrier};
ghost use Rattle.strm_run_callers.specs.Play.{CallsDoFit};

use crate::carrier::{Carrier, carry};
use crate::feed_result::FeedResult;
use crate::joint::{Joint, take_carrier};
use crate::run_name::{Of, RunName};
use std::alloc::Global;
use std::marker::{Model, PhantomData};
use std::sync::Wait;
use strm_head_calls::Reply;
use strm_module::{BoxedModule, ModuleOf};
use strm_msg::NoMem;
use strm_shared::{Seat, Shared};
use strm_shared_ended::Receipts;
use strm_shared_entry::SharedEntry;
use strm_shared_log::{Call, Called};

/// A seat of a caller on a stream, with the entries of the calls that were made from it, in order, as their
/// receipts show them, and the link on which the caller carries from there, if there is one. A contract sees
/// the seat and the entries.
///
/// As long as each call has a receipt they are those of the first calls that the caller's script has for the
/// stream. All that they have taken went over the link.
#[derive(Drop)]
pub struct Account<K, N: RunName<K>> {
    seat: Seat,
    entries: Vec<SharedEntry<K>>,
    carrier: Option<Box<Carrier<K, N>>>,
    of: PhantomData<N>,
}

impl<K, N: RunName<K>> Model for Account<K, N> {
    ghost use Rattle.strm_run_callers.specs.Account.{AccountValue, HasReceipts};
    ghost use Rattle.strm_run_callers.specs.Carrying.{carrier_in, CarriesAll};

    ghost Value = { AccountValue K };

    ghost view = { λ a. record { seat = a.seat; entries = a.entries.items } };

    ghost invariant = { λ a. HasReceipts N.run a.seat a.entries.items
        × CarriesAll N.run a.seat a.entries.items (carrier_in a.carrier) };
}

impl<K: Drop, N: RunName<K>> Account<K, N> {
    /// A seat from which no call was made, with the link on which its caller carries from there.
    pub(crate) fn new(
        alloc: Global,
        seat: Seat,
        carrier: Option<Box<Carrier<K, N>>>,
    ) -> Account<K, N>
        requires calls { seat.calls ≡ 0 }
        requires carrier { IfSome carrier (λ b. IsFreshCarrier N.run seat.caller seat.number b.value) }
        ensures { result ≡ fresh_account seat }
    {
        Account {
            seat,
            entries: Vec::new(alloc),
            carrier,
            of: PhantomData,
        }
    }

    /// Ends the feed of the link on which the caller carries, if there is one, and if its stream was not
    /// dropped before. Nothing goes over the link any more.
    pub fn end_carrier(&mut self) -> Option<FeedResult<K, N>>
        ensures same { self.new ≡ self.old }
        ensures carried { IfSome result (λ ended. IsCarried N.run self.old ended) }
    {
        Box::into_inner(self.carrier.take()?).end()
    }

    /// The seat, and the receipts.
    pub fn into_parts(self) -> (Seat, Receipts<K>)
        ensures seat { result.0 ≡ self.seat }
        ensures caller { result.1.caller ≡ self.seat.caller }
        ensures entries { result.1.entries.items ≡ self.entries }
        ensures receipts { HasReceipts N.run self.seat self.entries }
    {
        let Account {
            seat,
            entries,
            carrier,
            of: _,
        } = self;
        drop(carrier);
        let caller = seat.caller();
        (seat, Receipts { caller, entries })
    }
}

/// Makes one call from a seat, whose entry is kept behind those before it, as its receipt shows it. The
/// modules that came back are dropped, and so is a call that was not made. Fails only when memory runs out.
pub(crate) fn call_on<M: ModuleOf, N: RunName<M::Kind>, R: Wait>(
    rt: &R,
    shared: &Shared<M, Of<N>>,
    account: &mut Account<M::Kind, N>,
    call: Call<BoxedModule<M>>,
) -> Result<(), NoMem>
    requires fits { CallsDoFit M.row M.Kind.row M.Kind.Kinds }
    requires number { account.old.seat.number ≡ shared.now.number }
    requires next { IsNextInScript N.run account.old.seat call }
    ensures seat { OnOk result (CountsOne account.old.seat account.new.seat) }
    ensures before { OnOk result (take (length account.old.entries) account.new.entries ≡ account.old.entries) }
{
    account.entries.reserve(1)?;
    match shared.enter::<Reply, R>(rt, &mut account.seat, call) {
        Called::Done { receipt, .. } => {
            let mut carried = Ok(());
            if let Some(receipt) = receipt {
                let entry = receipt.into_entry();
                carried = carry(
                    &mut account.carrier,
                    entry.entry().event(),
                    entry.entry().answer(),
                );
                account.entries.push_reserved(entry);
            }
            carried
        }
        Called::NoRoom(call) => {
            drop(call);
            Err(NoMem)
        }
    }
}

/// Seats from which no call was made, each with the link of these on which its caller carries from there.
/// Fails only when memory runs out.
pub(crate) fn accounts_of<K: Drop, N: RunName<K>>(
    alloc: Global,
    seats: Vec<Seat>,
    joints: &mut Vec<Joint<K, N>>,
) -> Result<Vec<Account<K, N>>, NoMem>
    requires { All (λ seat. seat.calls ≡ 0) seats.items }
    ensures { IfOk result (λ accounts. accounts.items ≡ map fresh_account seats.items) }
{
    let mut all = Vec::new(alloc);
    for seat in seats {
        let carrier = take_carrier(joints, seat.caller(), seat.number());
        all.push(Account::new(alloc, seat, carrier))?;
    }
    Ok(all)
}

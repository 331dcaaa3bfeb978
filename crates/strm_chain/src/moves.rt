//! Lists of moves, and the result of a service.
ghost use Rattle.std.specs.Prelude.{◌≡◌, ◌<◌, ◌++◌, ◌∷◌, [], IfOk, OnOk, IsTrue, ◌↔◌, length};
ghost use Rattle.strm_chain.specs.declared.moves.TheConstants.{FEW};

use std::alloc::Global;
use std::fmt;
use std::marker::Model;
use strm_chain_ends::Place;
use strm_msg::NoMem;

/// The number of moves that are kept without memory of their own. With more the list would be larger than two
/// words.
const FEW: usize = 4;

/// The number of moves for which a list has room, when it first takes memory.
const MANY: usize = 20;

/// Up to `FEW` places in the order in which they moved, which contracts see as a list.
#[derive(Drop)]
struct FewMoves {
    len: u8,
    places: [Place; FEW],
}

impl Model for FewMoves {
    ghost use Rattle.std.specs.Prelude.{List, ◌≤◌, take};
    ghost use Rattle.strm_chain_ends.specs.declared.place.Place.{Place};
    ghost use Rattle.strm_chain.specs.declared.moves.TheConstants.{FEW};

    ghost Value = { List Place };

    ghost view = { λ few. take few.len few.places };

    ghost invariant = { λ few. few.len ≤ FEW };
}

impl FewMoves {
    /// An empty list.
    fn new() -> Self
        ensures { result ≡ [] }
    {
        FewMoves {
            len: 0,
            places: Default::default(),
        }
    }

    /// The places in order.
    fn as_slice(&self) -> &[Place]
        ensures { result.now ≡ self.now }
    {
        &self.places[..usize::from(self.len)]
    }

    /// Whether there is room for a further one.
    fn has_room(&self) -> bool
        ensures { IsTrue result ↔ (length self.now < FEW) }
    {
        self.as_slice().len() < FEW
    }

    /// Puts a move behind the others.
    fn push(&mut self, place: Place)
        requires { length self.old < FEW }
        ensures { self.new ≡ self.old ++ place ∷ [] }
    {
        self.places[usize::from(self.len)] = place;
        self.len += 1;
    }
}

/// The place where moves are stored.
#[derive(Drop)]
enum Stored {
    /// In the list itself.
    Few(FewMoves),
    /// In memory of their own.
    Many(Box<Vec<Place>>),
}

/// Places in the order in which they moved, which contracts see as a list.
///
/// Few moves take no memory of their own, as most calls move a message or none.
#[derive(Drop)]
pub struct Moves {
    stored: Stored,
}

impl Model for Moves {
    ghost use Rattle.std.specs.Prelude.{List};
    ghost use Rattle.strm_chain_ends.specs.declared.place.Place.{Place};
    ghost use Rattle.strm_chain.specs.Moves.{places_in};

    ghost Value = { List Place };

    ghost view = { λ moves. places_in moves.stored };
}

/// Printed as a list of places.
impl fmt::Debug for Moves {
    fn fmt<W: fmt::Write>(&self, f: &mut fmt::Formatter<W>) -> fmt::Result {
        f.debug_list().entries(self.as_slice()).finish()
    }
}

/// These places and one behind them, in memory of their own. Fails only when memory runs out.
fn many(alloc: Global, places: &[Place], place: Place) -> Result<Box<Vec<Place>>, NoMem>
    ensures { IfOk result (λ all. all.value.items ≡ places.now ++ place ∷ []) }
{
    let mut all = Vec::with_capacity(alloc, MANY)?;
    all.extend_from_slice(places)?;
    all.push(place)?;
    Ok(Box::new(alloc, all)?)
}

impl Moves {
    /// An empty list of moves. Takes no memory.
    pub fn new() -> Self
        ensures { result ≡ [] }
    {
        Moves {
            stored: Stored::Few(FewMoves::new()),
        }
    }

    /// These places, in their order. Fails only when memory runs out.
    pub fn from_slice(alloc: Global, places: &[Place]) -> Result<Self, NoMem>
        ensures { IfOk result (λ moves. moves ≡ places.now) }
    {
        let mut moves = Moves::new();
        for place in places {
            moves.push(alloc, *place)?;
        }
        Ok(moves)
    }

    /// The places in order.
    pub fn as_slice(&self) -> &[Place]
        ensures { result.now ≡ self.now }
    {
        match &self.stored {
            Stored::Few(places) => places.as_slice(),
            Stored::Many(places) => places.as_slice(),
        }
    }

    /// The number of moves.
    pub fn len(&self) -> usize
        ensures { result ≡ length self.now }
    {
        self.as_slice().len()
    }

    /// Whether nothing moved.
    pub fn is_empty(&self) -> bool
        ensures { IsTrue result ↔ (self.now ≡ []) }
    {
        self.as_slice().is_empty()
    }

    /// Puts a move behind the others. Fails only when memory runs out.
    #[inline(always)]
    pub(crate) fn push(&mut self, alloc: Global, place: Place) -> Result<(), NoMem>
        ensures { OnOk result (self.new ≡ self.old ++ place ∷ []) }
    {
        match &mut self.stored {
            Stored::Few(places) if places.has_room() => places.push(place),
            Stored::Few(places) => {
                let all = many(alloc, places.as_slice(), place)?;
                self.stored = Stored::Many(all);
            }
            Stored::Many(places) => places.push(place)?,
        }
        Ok(())
    }
}

/// The number of places that service looked at, each taken out of the run queue. A contract sees the number.
///
/// Nobody but a chain counts looks: a record of an event has those that the chain's run queue has given, or
/// none.
#[derive(Debug, Drop)]
pub struct Looks {
    count: u64,
}

impl Model for Looks {
    ghost use Rattle.std.specs.Prelude.{ℕ};

    ghost Value = { ℕ };

    ghost view = { λ l. l.count };
}

impl Looks {
    /// The looks of a step without service: none.
    pub fn none() -> Looks
        ensures { result ≡ 0 }
    {
        Looks { count: 0 }
    }

    /// The looks at this many places, as a run queue has given them.
    pub(crate) fn given(count: u64) -> Looks
        ensures { result ≡ count }
    {
        Looks { count }
    }

    /// The number of places: u64::MAX if more.
    pub fn count(&self) -> u64
        ensures { result ≡ self.now }
    {
        self.count
    }
}

/// The result of a service: its moves and its looks.
#[derive(Debug, Drop)]
pub struct Settled {
    /// The places that moved, in order.
    pub moves: Moves,
    /// The number of places that were looked at.
    pub looks: Looks,
}

impl Settled {
    /// The result of a step without service: no place was looked at, and none moved. Takes no memory.
    pub fn none() -> Self
        ensures moves { result.moves ≡ [] }
        ensures looks { result.looks ≡ 0 }
    {
        Settled {
            moves: Moves::new(),
            looks: Looks::none(),
        }
    }
}

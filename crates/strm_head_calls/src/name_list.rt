//! Lists of names.
ghost use Rattle.std.specs.Prelude.{◌≡◌, ◌<◌, ◌≤◌, ◌+◌, ◌++◌, ◌∷◌, [], length};
ghost use Rattle.std.specs.Cmp.{on_per, on_equiv};
ghost use Rattle.std.specs.Cmp.Lexicographic.{pointwise, lists_per, lists_equiv};
ghost use Rattle.strm_module.specs.declared.driver.TheConstants.{MOST_MODULES};
ghost use Rattle.strm_head_calls.specs.contracts.name.NamePartialEq.TheImpl.Laws as name_equal;
ghost use Rattle.strm_head_calls.specs.contracts.name.NameEq.TheImpl.Laws as name_same;

use crate::name::Name;
use std::fmt;
use std::marker::Model;
use strm_module::MOST_MODULES;

/// The names of the modules of an end, which contracts see as a list.
///
/// They take a byte more than the names themselves, so that a reply with them is small.
#[derive(Drop)]
pub struct NameList {
    len: u8,
    names: [Name; MOST_MODULES],
}

impl Model for NameList {
    ghost use Rattle.std.specs.Prelude.{ℕ, ◌≤◌, take};
    ghost use Rattle.arrayvec.specs.ArrayVec.{ArrayVec};
    ghost use Rattle.strm_module.specs.declared.driver.TheConstants.{MOST_MODULES};

    ghost Value = { ArrayVec (ArrayVec ℕ) };

    ghost view = { λ list. record { items = take list.len list.names } };

    ghost invariant = { λ list. list.len ≤ MOST_MODULES };
}

/// Printed as a list of names.
impl fmt::Debug for NameList {
    fn fmt<W: fmt::Write>(&self, f: &mut fmt::Formatter<W>) -> fmt::Result {
        f.debug_list().entries(self.as_slice()).finish()
    }
}

/// Equal where the names are equal, one by one.
impl PartialEq for NameList {
    ghost eq = { λ one other. pointwise ⟦<Name as PartialEq>⟧.eq one.items other.items };

    ghost laws = { on_per (λ list. list.items) (lists_per name_equal.laws-law) };

    fn eq(&self, other: &NameList) -> bool {
        self.as_slice() == other.as_slice()
    }
}

impl Eq for NameList {
    ghost laws = { on_equiv (λ list. list.items) (lists_equiv name_same.laws-law) };
}

impl NameList {
    /// No names. Takes no memory.
    fn none() -> Self
        ensures { result.items ≡ [] }
    {
        NameList {
            len: 0,
            names: Default::default(),
        }
    }

    /// Puts a name behind the others.
    fn push(&mut self, name: Name)
        requires { length self.old.items < MOST_MODULES }
        ensures items { self.new.items ≡ self.old.items ++ name ∷ [] }
        ensures len { length self.new.items ≡ length self.old.items + 1 }
    {
        self.names[usize::from(self.len)] = name;
        self.len += 1;
    }

    /// These names, in their order. Takes no memory.
    pub fn new(names: &[Name]) -> Self
        requires { length names.now ≤ MOST_MODULES }
        ensures { result.items ≡ names.now }
    {
        let mut list = NameList::none();
        for name in names {
            list.push(name.copy());
        }
        list
    }

    /// An equal list. Takes no memory.
    pub fn copy(&self) -> Self
        ensures { result ≡ self.now }
    {
        NameList::new(self.as_slice())
    }

    /// The names in order.
    pub fn as_slice(&self) -> &[Name]
        ensures items { result.now ≡ self.now.items }
        ensures few { length result.now ≤ MOST_MODULES }
    {
        &self.names[..usize::from(self.len)]
    }
}

//! Look, list and find: questions about the modules, which change nothing and take no memory.
ghost use Rattle.std.specs.Prelude.{◌≡◌, false, ◌≤◌, length};
ghost use Rattle.std.specs.List.{list_any};
ghost use Rattle.strm_module.specs.declared.driver.TheConstants.{MOST_MODULES};
ghost use Rattle.strm_chain_ends.specs.Image.{end_of};
ghost use Rattle.strm_head_calls.specs.Refusal.{first_that_holds};
ghost use Rattle.strm_head_ioctl.specs.Ask.{is_empty};
ghost use Rattle.strm_head_ioctl.specs.Modules.{look_refusals, look_effect};
ghost use Rattle.strm_head_ioctl.specs.Names.{names_of, has_name, list_effect, find_refusals, find_effect};

use arrayvec::ArrayVec;
use strm_chain::{Chain, MOST_MODULES};
use strm_head_calls::{Name, NameList, Refusal, Reply};
use strm_module::{LONGEST_NAME, ModuleOf};
use strm_msg::{Bytes, End};

/// The names of the modules of an end, topmost first. Takes no memory.
pub fn names_of<M: ModuleOf>(chain: &Chain<M>, end: End) -> ArrayVec<Name, MOST_MODULES>
    ensures names { result.items ≡ names_of (end_of chain.now.image end) }
    ensures few { length result.items ≤ MOST_MODULES }
{
    let mut names = ArrayVec::new();
    let count = chain.count(end);
    for i in 0..count {
        let shape = chain.shape(end, i as u8 + 1).unwrap();
        names.push(Name::new(&shape.name));
    }
    names
}

/// The refusal of a look's own: EINVAL where no module is there (streamio(7), I_LOOK).
pub fn look_refusal<M: ModuleOf>(chain: &Chain<M>, end: End) -> Option<Refusal>
    ensures { result ≡ first_that_holds (look_refusals chain.now.image end) }
{
    if chain.count(end) == 0 {
        return Some(Refusal::Invalid);
    }
    None
}

/// Returns the name of the topmost module (streamio(7), I_LOOK). To be called where a module is there.
pub fn look<M: ModuleOf>(chain: &Chain<M>, end: End) -> Reply
    requires { is_empty (end_of chain.now.image end).modules ≡ false }
    ensures { result ≡ (look_effect chain.now.image end).reply }
{
    let first = chain.shape(end, 1).unwrap();
    Reply::Look {
        name: Name::new(&first.name),
    }
}

/// Returns the names of the modules, topmost first, and the driver (streamio(7), I_LIST).
pub fn list<M: ModuleOf>(chain: &Chain<M>, end: End) -> Reply
    ensures { result ≡ (list_effect chain.now.image end).reply }
{
    let names = names_of(chain, end);
    Reply::List {
        names: NameList::new(names.as_slice()),
        driver: chain.driver(),
    }
}

/// The refusal of a find's own: EINVAL for a name of no byte or of more than `LONGEST_NAME`
/// (streamio(7), I_FIND).
pub fn find_refusal(name: &Bytes) -> Option<Refusal>
    ensures { result ≡ first_that_holds (find_refusals name.now) }
{
    if name.len() == 0 || name.len() > LONGEST_NAME {
        return Some(Refusal::Invalid);
    }
    None
}

/// Whether a module has a name.
fn has_name(own: &Name, name: &Bytes) -> bool
    ensures { result ≡ has_name own.now name.now }
{
    own.as_slice() == name.as_slice()
}

/// Whether a name is among those of modules.
fn is_among(names: &[Name], name: &Bytes) -> bool
    ensures { result ≡ list_any (λ own. has_name own name.now) names.now }
{
    names.iter().any(|own| has_name(own, name))
}

/// Returns whether a module of a name is there (streamio(7), I_FIND).
pub fn find<M: ModuleOf>(chain: &Chain<M>, end: End, name: &Bytes) -> Reply
    ensures { result ≡ (find_effect chain.now.image end name.now).reply }
{
    let names = names_of(chain, end);
    Reply::Find {
        found: is_among(names.as_slice(), name),
    }
}

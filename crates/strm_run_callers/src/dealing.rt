//! The callers of a run, and the workers that play them.
ghost use Rattle.std.specs.Prelude.{◌≡◌, ◌<◌, ◌^◌, [], length, All, IfOk};
ghost use Rattle.strm_run_callers.specs.Dealing.{callers_of, AreDealt, AreSeated};

use crate::account::accounts_of;
use crate::joint::Joint;
use crate::player::Player;
use crate::run_name::RunName;
use std::alloc::Global;
use std::mem;
use strm_module::{BoxedModule, ModuleOf};
use strm_msg::NoMem;
use strm_run_input::Script;
use strm_shared::Seat;

/// The callers of a run, in order, each with its script, its seats, and the links on which it carries. Fails
/// only when memory runs out.
pub fn seated<M: ModuleOf, N: RunName<M::Kind>>(
    alloc: Global,
    scripts: Vec<Script<BoxedModule<M>>>,
    mut seats: Vec<Vec<Seat>>,
    mut joints: Vec<Joint<M::Kind, N>>,
) -> Result<Vec<Player<M, N>>, NoMem>
    requires scripts { N.run.scripts ≡ scripts.items }
    requires few { length scripts.items < 2 ^ 32 }
    requires there { All (λ script. All (λ one. one.stream < length N.run.setups) script) scripts.items }
    requires seats { AreSeated N.run seats.items }
    ensures { IfOk result (λ players. players.items ≡ callers_of (length scripts.items)) }
{
    let mut all = Vec::new(alloc);
    let mut caller: u32 = 0;
    for script in scripts {
        let mine = mem::replace(&mut seats[caller as usize], Vec::new(alloc));
        let accounts = accounts_of(alloc, mine, &mut joints)?;
        all.push(Player::new(alloc, caller, script, accounts))?;
        caller += 1;
    }
    Ok(all)
}

/// Workers that play nothing yet, as many as are asked for. Fails only when memory runs out.
fn crews_of<M: ModuleOf, N: RunName<M::Kind>>(
    alloc: Global,
    workers: u32,
) -> Result<Vec<Vec<Player<M, N>>>, NoMem>
    ensures many { IfOk result (λ crews. length crews.items ≡ workers) }
    ensures none { IfOk result (λ crews. All (λ crew. crew.items ≡ []) crews.items) }
{
    let mut crews = Vec::new(alloc);
    for _ in 0..workers {
        crews.push(Vec::new(alloc))?;
    }
    Ok(crews)
}

/// Deals the callers out: each to the worker whose number is the caller's modulo the number of workers. Fails
/// only when memory runs out.
pub fn deal<M: ModuleOf, N: RunName<M::Kind>>(
    alloc: Global,
    players: Vec<Player<M, N>>,
    workers: u32,
) -> Result<Vec<Vec<Player<M, N>>>, NoMem>
    requires { 0 < workers }
    ensures { IfOk result (λ crews. AreDealt players.items workers crews.items) }
{
    let mut crews = crews_of(alloc, workers)?;
    for player in players {
        let at = (player.caller() % workers) as usize;
        crews[at].push(player)?;
    }
    Ok(crews)
}

//! A request as a history has it.
ghost use Rattle.std.specs.Prelude.{◌≡◌, IfOk};
ghost use Rattle.strm_head_calls.specs.declared.request.Request.TheVariants as Requests;

use crate::answer::copy_part;
use crate::name::Name;
use crate::parts::BoxedParts;
use crate::request::{Priority, PutFlag, Request};
use crate::service::ServiceCall;
use std::alloc::Global;
use strm_module::{BoxedModule, BoxedShape, ModuleOf};
use strm_msg::{Bytes, NoMem, Side};

/// A putmsg of copies. Fails only when memory runs out.
fn copy_putmsg<P>(alloc: Global, flag: Priority, parts: &BoxedParts) -> Result<Request<P>, NoMem>
    ensures { IfOk result (λ copy. copy ≡ Requests.Putmsg flag parts.now) }
{
    let parts = parts.copy(alloc)?;
    Ok(Request::Putmsg { flag, parts })
}

/// A putpmsg of copies. Fails only when memory runs out.
fn copy_putpmsg<P>(
    alloc: Global,
    band: u8,
    flag: PutFlag,
    parts: &BoxedParts,
) -> Result<Request<P>, NoMem>
    ensures { IfOk result (λ copy. copy ≡ Requests.Putpmsg band flag parts.now) }
{
    let parts = parts.copy(alloc)?;
    Ok(Request::Putpmsg { band, flag, parts })
}

/// A write of a copy. Fails only when memory runs out.
fn copy_write<P>(dat: &Bytes) -> Result<Request<P>, NoMem>
    ensures { IfOk result (λ copy. copy ≡ Requests.Write dat.now) }
{
    let dat = dat.copy()?;
    Ok(Request::Write { dat })
}

/// A push of the module's shape. Fails only when memory runs out.
fn copy_push<M: ModuleOf>(
    alloc: Global,
    instance: &BoxedModule<M>,
) -> Result<Request<BoxedShape<M::Kind>>, NoMem>
    ensures { IfOk result (λ copy. copy ≡ Requests.Push instance.now) }
{
    let shape = instance.shape().copy(alloc)?;
    let instance = BoxedShape::new(alloc, shape)?;
    Ok(Request::Push { instance })
}

/// A find of a copy of the name. Fails only when memory runs out.
fn copy_find<P>(name: &Bytes) -> Result<Request<P>, NoMem>
    ensures { IfOk result (λ copy. copy ≡ Requests.Find name.now) }
{
    let name = name.copy()?;
    Ok(Request::Find { name })
}

/// An ioctl of copies. Fails only when memory runs out.
fn copy_str<P>(cmd: u32, dat: &Option<Bytes>) -> Result<Request<P>, NoMem>
    ensures { IfOk result (λ copy. copy ≡ Requests.Str cmd dat.now) }
{
    let dat = copy_part(dat)?;
    Ok(Request::Str { cmd, dat })
}

/// An ioctl of copies whose answer is asked for later. Fails only when memory runs out.
fn copy_strput<P>(cmd: u32, dat: &Option<Bytes>) -> Result<Request<P>, NoMem>
    ensures { IfOk result (λ copy. copy ≡ Requests.Strput cmd dat.now) }
{
    let dat = copy_part(dat)?;
    Ok(Request::Strput { cmd, dat })
}

/// A service call of a copy. Fails only when memory runs out.
fn copy_service<P>(
    alloc: Global,
    name: &Name,
    side: Side,
    call: &ServiceCall,
) -> Result<Request<P>, NoMem>
    ensures { IfOk result (λ copy. copy ≡ Requests.Service name.now side call.now) }
{
    let call = call.copy(alloc)?;
    Ok(Request::Service {
        name: name.copy(),
        side,
        call,
    })
}

/// A request as a history has it: a copy, with the module's shape in the module's place. Fails only when
/// memory runs out.
pub fn copy_request<M: ModuleOf>(
    alloc: Global,
    request: &Request<BoxedModule<M>>,
) -> Result<Request<BoxedShape<M::Kind>>, NoMem>
    ensures { IfOk result (λ copy. copy ≡ request.now) }
{
    match request {
        Request::Putmsg { flag, parts } => copy_putmsg(alloc, *flag, parts),
        Request::Putpmsg { band, flag, parts } => copy_putpmsg(alloc, *band, *flag, parts),
        Request::Getmsg {
            maxctl,
            maxdat,
            flag,
        } => Ok(Request::Getmsg {
            maxctl: *maxctl,
            maxdat: *maxdat,
            flag: *flag,
        }),
        Request::Getpmsg {
            maxctl,
            maxdat,
            band,
            flag,
        } => Ok(Request::Getpmsg {
            maxctl: *maxctl,
            maxdat: *maxdat,
            band: *band,
            flag: *flag,
        }),
        Request::Read { max } => Ok(Request::Read { max: *max }),
        Request::Write { dat } => copy_write(dat),
        Request::Push { instance } => copy_push(alloc, instance),
        Request::Nread => Ok(Request::Nread),
        Request::Peek {
            maxctl,
            maxdat,
            flag,
        } => Ok(Request::Peek {
            maxctl: *maxctl,
            maxdat: *maxdat,
            flag: *flag,
        }),
        Request::SetRead { mode, prot } => Ok(Request::SetRead {
            mode: *mode,
            prot: *prot,
        }),
        Request::GetRead => Ok(Request::GetRead),
        Request::Canput { band } => Ok(Request::Canput { band: *band }),
        Request::Ckband { band } => Ok(Request::Ckband { band: *band }),
        Request::Getband => Ok(Request::Getband),
        Request::Take => Ok(Request::Take),
        Request::Service { name, side, call } => copy_service(alloc, name, *side, call),
        Request::Tick { ticks } => Ok(Request::Tick { ticks: *ticks }),
        Request::Poll => Ok(Request::Poll),
        Request::Pop => Ok(Request::Pop),
        Request::Look => Ok(Request::Look),
        Request::List => Ok(Request::List),
        Request::Find { name } => copy_find(name),
        Request::Str { cmd, dat } => copy_str(*cmd, dat),
        Request::Strput { cmd, dat } => copy_strput(*cmd, dat),
        Request::Strget { drops } => Ok(Request::Strget { drops: *drops }),
        Request::Flush { r, w } => Ok(Request::Flush { r: *r, w: *w }),
        Request::FlushBand { band, r, w } => Ok(Request::FlushBand {
            band: *band,
            r: *r,
            w: *w,
        }),
        Request::Close => Ok(Request::Close),
    }
}

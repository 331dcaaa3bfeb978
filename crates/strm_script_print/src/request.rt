//! The printed requests of calls.
ghost use Rattle.std.specs.Prelude.{◌≡◌, ◌∷◌, false};
ghost use Rattle.strm_script_words.specs.Field as says;
ghost use Rattle.strm_script_words.specs.Service.{service_verb};
ghost use Rattle.strm_script_words.specs.Table.{asked_of};
ghost use Rattle.strm_script_words.specs.Words.{side_word};
ghost use Rattle.strm_script_print.specs.Fields as text;
ghost use Rattle.strm_script_print.specs.LineBuffer.{AddsFields};

use crate::field::Field::{Number, Word};
use crate::field::{add_all, add_number, add_part, add_word, maximum_field, part_field};
use crate::line_buffer::LineBuffer;
use crate::message::add_message;
use crate::module::{PrintKind, add_module};
use std::io::Write;
use strm_head_calls::{Name, Request, ServiceCall};
use strm_module::BoxedShape;
use strm_msg::Side;
use strm_script_words::{Keyword, Verb};

/// The verb of a service call.
fn service_verb(call: &ServiceCall) -> Verb
    ensures { result ≡ service_verb call.now }
{
    match call {
        ServiceCall::Getq { .. } => Verb::Getq,
        ServiceCall::Putbq { .. } => Verb::Putbq,
        ServiceCall::Putnext { .. } => Verb::Putnext,
        ServiceCall::Bcanputnext { .. } => Verb::Bcanputnext,
        ServiceCall::Qsize => Verb::Qsize,
    }
}

/// The verb of a request.
pub(crate) fn verb_of<K>(request: &Request<BoxedShape<K>>) -> Verb
    ensures { result ≡ text.verb_of (asked_of request.now) }
{
    match request {
        Request::Putmsg { .. } => Verb::Putmsg,
        Request::Putpmsg { .. } => Verb::Putpmsg,
        Request::Getmsg { .. } => Verb::Getmsg,
        Request::Getpmsg { .. } => Verb::Getpmsg,
        Request::Read { .. } => Verb::Read,
        Request::Write { .. } => Verb::Write,
        Request::Push { .. } => Verb::Push,
        Request::Pop => Verb::Pop,
        Request::Look => Verb::Look,
        Request::List => Verb::List,
        Request::Find { .. } => Verb::Find,
        Request::Str { .. } => Verb::Str,
        Request::Strput { .. } => Verb::Strput,
        Request::Strget { .. } => Verb::Strget,
        Request::Flush { .. } => Verb::Flush,
        Request::FlushBand { .. } => Verb::FlushBand,
        Request::Nread => Verb::Nread,
        Request::Peek { .. } => Verb::Peek,
        Request::SetRead { .. } => Verb::SetRead,
        Request::GetRead => Verb::GetRead,
        Request::Canput { .. } => Verb::Canput,
        Request::Ckband { .. } => Verb::Ckband,
        Request::Getband => Verb::Getband,
        Request::Close => Verb::Close,
        Request::Take => Verb::Take,
        Request::Service { call, .. } => service_verb(call),
        Request::Tick { .. } => Verb::Tick,
        Request::Poll => Verb::Poll,
    }
}

/// Adds the fields of a service call behind MODULE and SIDE.
#[tactic(auto, using(crate::proofs::GatheredLemmas::puts_nothing))]
fn add_service_call<W: Write>(w: &mut W, out: &mut LineBuffer, call: &ServiceCall)
    ensures { AddsFields W.contents w.old w.new out.old out.new (text.service_fields call.now) }
{
    match call {
        ServiceCall::Getq { flag } => add_word(w, out, flag.word()),
        ServiceCall::Putbq { m } | ServiceCall::Putnext { m } => add_message(w, out, m),
        ServiceCall::Bcanputnext { band } => add_number(w, out, u64::from(*band)),
        ServiceCall::Qsize => {}
    }
}

/// Adds the fields of a service call behind NAME:END.
#[tactic(auto, using(crate::proofs::GatheredLemmas::puts_on))]
fn add_service<W: Write>(
    w: &mut W,
    out: &mut LineBuffer,
    name: &Name,
    side: Side,
    call: &ServiceCall,
)
    ensures { AddsFields W.contents w.old w.new out.old out.new (says.Word name.now.items ∷ says.Word (side_word side) ∷ text.service_fields call.now) }
{
    add_all(w, out, &[Word(name.as_slice()), Word(side.word())]);
    add_service_call(w, out, call);
}

/// Adds the fields of a call that is no read and no write, behind NAME:END, from a list of them. It is a
/// function apart, so that room for the lists is made only for calls that have some.
#[inline(never)]
#[tactic(auto, using(crate::proofs::GatheredLemmas::puts_nothing))]
fn add_as_list<W: Write, K: PrintKind + Drop>(
    w: &mut W,
    out: &mut LineBuffer,
    request: &Request<BoxedShape<K>>,
)
    requires { text.is_read_or_write request.now ≡ false }
    ensures { AddsFields W.contents w.old w.new out.old out.new (text.fields_of K.spelling (asked_of request.now)) }
{
    match request {
        Request::Putmsg { flag, parts } => add_all(
            w,
            out,
            &[
                part_field(&parts.ctl),
                part_field(&parts.dat),
                Word(flag.word()),
            ],
        ),
        Request::Putpmsg { band, flag, parts } => add_all(
            w,
            out,
            &[
                part_field(&parts.ctl),
                part_field(&parts.dat),
                Number(u64::from(*band)),
                Word(flag.word()),
            ],
        ),
        Request::Getmsg {
            maxctl,
            maxdat,
            flag,
        }
        | Request::Peek {
            maxctl,
            maxdat,
            flag,
        } => add_all(
            w,
            out,
            &[
                maximum_field(*maxctl),
                maximum_field(*maxdat),
                Word(flag.word()),
            ],
        ),
        Request::Getpmsg {
            maxctl,
            maxdat,
            band,
            flag,
        } => add_all(
            w,
            out,
            &[
                maximum_field(*maxctl),
                maximum_field(*maxdat),
                Number(u64::from(*band)),
                Word(flag.word()),
            ],
        ),
        Request::Read { .. } | Request::Write { .. } => unreachable!(),
        Request::Push { instance } => add_module(w, out, instance.shape()),
        Request::Find { name } => add_part(w, out, name.as_slice()),
        Request::Str { cmd, dat } | Request::Strput { cmd, dat } => add_all(
            w,
            out,
            &[Number(u64::from(*cmd)), part_field(dat)],
        ),
        Request::Strget { drops } => add_word(w, out, drops.word()),
        Request::Flush { r, w: write } => add_all(w, out, &[Word((*r, *write).word())]),
        Request::FlushBand { band, r, w: write } => {
            add_all(
                w,
                out,
                &[Number(u64::from(*band)), Word((*r, *write).word())],
            )
        }
        Request::SetRead { mode, prot } => {
            add_all(w, out, &[Word(mode.word()), Word(prot.word())])
        }
        Request::Service { name, side, call } => add_service(w, out, name, *side, call),
        Request::Canput { band } | Request::Ckband { band } => add_number(w, out, u64::from(*band)),
        Request::Tick { ticks } => add_number(w, out, u64::from(*ticks)),
        Request::Pop
        | Request::Look
        | Request::List
        | Request::Nread
        | Request::GetRead
        | Request::Getband
        | Request::Close
        | Request::Take
        | Request::Poll => {}
    }
}

/// Adds the fields of a call behind NAME:END.
pub(crate) fn add_fields<W: Write, K: PrintKind + Drop>(
    w: &mut W,
    out: &mut LineBuffer,
    request: &Request<BoxedShape<K>>,
)
    ensures { AddsFields W.contents w.old w.new out.old out.new (text.fields_of K.spelling (asked_of request.now)) }
{
    match request {
        Request::Read { max } => add_number(w, out, u64::from(*max)),
        Request::Write { dat } => add_part(w, out, dat.as_slice()),
        _ => add_as_list(w, out, request),
    }
}

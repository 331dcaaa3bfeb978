//! The fields of a stream line.
ghost use Rattle.std.specs.Prelude.{◌≡◌};
ghost use Rattle.strm_script_parse.specs.Reading as reading;
ghost use Rattle.strm_script_text.specs.Text.{texts_of};
ghost use Rattle.strm_script_words.specs.Fault.{Tells};

use strm_head_calls::{MOST_RING, Setup};
use strm_module::Driver;
use strm_script_words::{Cause, marks_at, number_at};

/// The driver of a word.
pub(crate) fn driver_at(text: &[u8]) -> Result<Driver, Cause>
    ensures { Tells (λ driver. driver) result (reading.driver_at text.now) }
{
    match text {
        b"echo" => Ok(Driver::Echo),
        b"loop" => Ok(Driver::Loop),
        b"line" => Ok(Driver::Line),
        b"wire" => Ok(Driver::Wire),
        _ => Err(Cause::UnknownWord),
    }
}

/// The number of fields that follow the driver.
pub(crate) fn arity(driver: Driver) -> usize
    ensures { result ≡ reading.setup_arity driver }
{
    if driver.is_line() { 3 } else { 2 }
}

/// The number of messages for which a ring has room: 1 to 4096.
fn ring_at(text: &[u8]) -> Result<u16, Cause>
    ensures { Tells (λ ring. ring) result (reading.ring_at text.now) }
{
    let ring = number_at(text, u64::from(MOST_RING))?;
    if ring < 1 {
        return Err(Cause::Number);
    }
    Ok(ring as u16)
}

/// The ring of a line or a wire. The other drivers have none.
fn rings_at(driver: Driver, texts: &[&[u8]]) -> Result<u16, Cause>
    ensures { Tells (λ ring. ring) result (reading.rings_at driver (texts_of texts.now)) }
{
    match texts {
        [ring] if driver.is_line() => ring_at(ring),
        [] if !driver.is_line() => Ok(1),
        _ => Err(Cause::Fields),
    }
}

/// The setup of a stream of this driver, by the fields behind it.
#[tactic(auto, unfolding(crate::specs::Reading::setup_at))]
pub(crate) fn setup_at(driver: Driver, texts: &[&[u8]]) -> Result<Setup, Cause>
    ensures { Tells (λ setup. setup) result (reading.setup_at driver (texts_of texts.now)) }
{
    let [head, drv, texts @ ..] = texts else {
        return Err(Cause::Fields);
    };
    let head = marks_at(head)?;
    let drv = marks_at(drv)?;
    let ring = rings_at(driver, texts)?;
    Ok(Setup {
        driver,
        head,
        drv,
        ring,
    })
}

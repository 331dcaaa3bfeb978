//! An end that is lent, for what changes it alone.
ghost use Rattle.std.specs.Prelude.{◌≡◌};
ghost use Rattle.std.specs.Borrow.{sem};
ghost use Rattle.strm_module.specs.Driver.{input_end};
ghost use Rattle.strm_chain_ends.specs.Image.{end_of, room_of};
ghost use Rattle.strm_chain_ends.specs.Lent.{LendsEnd};

use super::Ends;
use strm_chain_end::StreamEnd;
use strm_module::ModuleOf;
use strm_msg::End;

impl<M: ModuleOf> Ends<M> {
    /// The state of one end, to be changed. The other end, the driver, and whether the stream is broken stay
    /// as they are.
    #[inline(always)]
    pub fn end_mut(&mut self, end: End) -> &mut StreamEnd<M>
        ensures* lends { sem 𝓛 (LendsEnd M.row M.Kind.row M.Kind.Kinds end self.entry result) }
        ensures state { result.now.state ≡ end_of self.old.image end }
        ensures room { result.now.head_room ≡ room_of self.old.rooms end }
        ensures input { end ≡ input_end self.old.image.driver → result.now.drv_room ≡ self.old.rooms.line }
    {
        match end {
            End::A => &mut self.a,
            End::B => &mut self.b,
        }
    }
}

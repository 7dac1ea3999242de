//! The items of the lists in a server's messages, each as the parts that it is made of.
#![tactic(auto, using(pgp_base::proofs::Parts::held_steps))]

ghost use Rattle.std.specs.Prelude.{List, OnOk, OnErr, IfErr};
ghost use Rattle.pgp_base.specs.Held.{IsFrontOf};
ghost use Rattle.pgp_frontend.specs.Payload.{Part};
ghost use Rattle.pgp_frontend.specs.Putting.{PutsParts, PartsRefused};
ghost use Rattle.pgp_message_write.specs.Lists.{format_parts, text_parts, type_parts, value_parts, shown};

use pgp_base::big_endian::{u16_bytes, u32_bytes};
use pgp_base::{Buffer, Error};
use pgp_frontend::field::{Field, put_fields};

/// An item of a list.
pub(crate) trait Item {
    /// What it is made of.
    ghost parts: { Self → List Part };

    /// Appends it. An error leaves what stood there as a front.
    fn put<B: Buffer>(&self, buf: &mut B) -> Result<(), Error>
        ensures ok { OnOk result (PutsParts (parts self.now) (B.held buf.old) (B.held buf.new)) }
        ensures err { OnErr result (IsFrontOf (B.held buf.old) (B.held buf.new)) }
        ensures cause { IfErr result (PartsRefused (parts self.now) B.Lacks (B.held buf.old)) };
}

/// A value of a row, or a null.
impl<'a> Item for Option<&'a [u8]> {
    ghost parts = { λ value. value_parts (shown value) };

    fn put<B: Buffer>(&self, buf: &mut B) -> Result<(), Error> {
        match self {
            Some(bytes) => put_fields(&[Field::Sized(bytes)], buf),
            None => put_fields(&[Field::Int32(-1)], buf),
        }
    }
}

/// A text.
impl<'a> Item for &'a [u8] {
    ghost parts = { λ text. text_parts text.now };

    fn put<B: Buffer>(&self, buf: &mut B) -> Result<(), Error> {
        put_fields(&[Field::Text(self)], buf)
    }
}

/// A column's format.
impl Item for u16 {
    ghost parts = { λ format. format_parts format };

    #[tactic(auto, unfolding(pgp_base::specs::Wire::uint16))]
    fn put<B: Buffer>(&self, buf: &mut B) -> Result<(), Error> {
        put_fields(&[Field::Rest(&u16_bytes(*self))], buf)
    }
}

/// A parameter's type.
impl Item for u32 {
    ghost parts = { λ type_. type_parts type_ };

    #[tactic(auto, unfolding(pgp_base::specs::Wire::uint32))]
    fn put<B: Buffer>(&self, buf: &mut B) -> Result<(), Error> {
        put_fields(&[Field::Rest(&u32_bytes(*self))], buf)
    }
}

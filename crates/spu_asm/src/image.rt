//! What a text stands for.

ghost use Rattle.std.specs.Prelude.{◌≡◌};

use std::marker::Model;

/// An image: the bytes of the text from address 0 on, the data with their address, and the entry.
#[derive(Drop)]
pub struct Image {
    pub(crate) text: Vec<u8>,
    pub(crate) data_bytes: Vec<u8>,
    pub(crate) bytes_at: u32,
    pub(crate) entry: u32,
}

impl Model for Image {
    ghost use Rattle.spu_asm.specs.Images.{Image, IsImage};

    ghost Value = { Image };

    ghost view = { λ s. record { text = s.text.items; bytes = s.data_bytes.items; bytes_at = s.bytes_at; entry = s.entry } };

    ghost invariant = { λ s. IsImage (record { text = s.text.items; bytes = s.data_bytes.items; bytes_at = s.bytes_at; entry = s.entry }) };
}

impl Image {
    ghost use Rattle.spu_asm.specs.Images.{IsImage};

    /// The bytes of the text section, which begins at address 0. The whole image fits the local store.
    pub fn text(&self) -> &[u8]
        ensures text { result.now ≡ self.now.text }
        ensures fits { IsImage self.now }
    {
        &self.text
    }

    /// The bytes of the data section.
    pub fn bytes(&self) -> &[u8]
        ensures { result.now ≡ self.now.bytes }
    {
        &self.data_bytes
    }

    /// The address of the data section.
    pub fn bytes_at(&self) -> u32
        ensures { result ≡ self.now.bytes_at }
    {
        self.bytes_at
    }

    /// Where the program starts.
    pub fn entry(&self) -> u32
        ensures { result ≡ self.now.entry }
    {
        self.entry
    }
}

// A file in memory.
ghost use Rattle.std.specs.Prelude.{◌≡◌};
ghost use Rattle.std.specs.Option.{option_map};
ghost use Rattle.cell_io.specs.Files.{file_named};

use std::marker::Model;

/// A file in memory: its name and its bytes.
#[derive(Drop)]
pub struct MemFile {
    pub name: String,
    pub bytes: Vec<u8>,
}

impl Model for MemFile {
    ghost use Rattle.cell_io.specs.Files.{File};
    ghost use Rattle.std.specs.Prelude.{string_bytes};

    ghost Value = { File };

    ghost view = { λ f. record { name = string_bytes f.name; bytes = f.bytes.items } };
}

/// The bytes of the file of this name.
pub fn find_file<'a>(files: &'a [MemFile], name: &str) -> Option<&'a [u8]>
    ensures { option_map (λ bytes. bytes.now) result ≡ file_named files.now name.now }
{
    let found = files.iter().find(|file| file.name.as_str() == name);
    match found {
        Some(file) => Some(file.bytes.as_slice()),
        None => None,
    }
}

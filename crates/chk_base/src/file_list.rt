// Files in a list, each with its name.
ghost use Rattle.std.specs.Prelude.{◌≡◌, [], OnOk, OnErr, option_copied, position, bytes_eq};
ghost use Rattle.std.specs.FinMap.{empty, get};
ghost use Rattle.chk_base.specs.Desk.{with_file, with_piece};

use crate::text::Text;
use std::alloc::{AllocError, Global};
use std::marker::Model;

// Files by their names. There are few of them, so a look-up goes through all.
#[derive(Drop)]
pub(crate) struct FileList {
    items: Vec<(Text, Text)>,
}

impl Model for FileList {
    ghost use Rattle.std.specs.Prelude.{List, ℕ};
    ghost use Rattle.std.specs.Ordering.{nat_cmp};
    ghost use Rattle.std.specs.Cmp.Lexicographic.{slice_cmp};
    ghost use Rattle.std.specs.Coded.{coded_ℕ, coded_list};
    ghost use Rattle.std.specs.FinMap as map;

    ghost Value = { map.FinMap (slice_cmp nat_cmp) (List ℕ) };

    ghost coded = { map.code (coded_list coded_ℕ) (coded_list coded_ℕ) };

    ghost view = { λ a. map.from_entries a.items.items };
}

// The place of the first file of this name.
fn place(files: &[(Text, Text)], name: &Text) -> Option<usize>
    ensures { result ≡ position (λ file. bytes_eq file.0 name.now) files.now }
{
    files
        .iter()
        .position(|file| file.0.as_bytes() == name.as_bytes())
}

impl FileList {
    pub(crate) fn new(alloc: Global) -> FileList
        ensures { result ≡ empty }
    {
        FileList {
            items: Vec::new(alloc),
        }
    }

    pub(crate) fn get(&self, name: &Text) -> Option<&Text>
        ensures { option_copied result ≡ get self.now name.now }
    {
        let at = place(&self.items, name)?;
        Some(&self.items[at].1)
    }

    // Puts a file in place of any of its name.
    pub(crate) fn put(&mut self, name: Text, bytes: Text) -> Result<(), AllocError>
        ensures ok { OnOk result (self.new ≡ with_file name bytes self.old) }
        ensures err { OnErr result (self.new ≡ self.old) }
    {
        match place(&self.items, &name) {
            Some(at) => self.items[at].1 = bytes,
            None => self.items.push((name, bytes))?,
        }
        Ok(())
    }

    // Puts a piece at the end of a file, where there is one of this name.
    pub(crate) fn append(&mut self, name: &Text, piece: &[u8]) -> Result<(), AllocError>
        ensures ok { OnOk result (self.new ≡ with_piece name.now piece.now self.old) }
        ensures err { OnErr result (self.new ≡ self.old) }
    {
        if let Some(at) = place(&self.items, name) {
            self.items[at].1.append(piece)?;
        }
        Ok(())
    }
}

ghost use Rattle.std.specs.Prelude.{◌≡◌, ◌≤◌, ◌↔◌, ℕ, List, IsTrue, IfOk, IsErrOf, length};
ghost use Rattle.sy_outside.specs.Outside.{CauseOf};
ghost use Rattle.sy_outside.specs.FileReading.{IsContent, IsTooBig, is_file_fault};
ghost use Rattle.sy_outside.specs.declared.read.FileFault.TheVariants.{ReadFault, Memory};

use crate::outside::PIECE;
use crate::{Failed, Files};
use std::alloc::{AllocError, Global};
use sy_base::Text;
use thiserror::Error;

/// Why a file could not be read.
#[derive(Clone, Copy, Debug, PartialEq, Eq, Error)]
pub enum FileFault {
    #[error("a read of the file failed")]
    ReadFault,
    #[error("the file has more than 1,048,576 bytes")]
    TooBig,
    #[error("out of memory")]
    Memory,
}

impl From<Failed> for FileFault {
    ghost from_gives = { λ _ e. e ≡ ReadFault };

    fn from(_: Failed) -> FileFault {
        FileFault::ReadFault
    }
}

impl From<AllocError> for FileFault {
    ghost from_gives = { λ _ e. e ≡ Memory };

    fn from(_: AllocError) -> FileFault {
        FileFault::Memory
    }
}

/// The greatest length of a file, in bytes.
pub const FILE_LIMIT: usize = 1_048_576;

/// Reads a whole file. It ends with TooBig as soon as it has read the byte after the limit, and with
/// ReadFault only where a read failed.
pub fn read_file<F: Files>(alloc: Global, files: &mut F, name: &Text) -> Result<Text, FileFault>
    requires { IsTrue (F.lent files.old name.now) }

    ensures content { IfOk result (IsContent (F.told files.old name.now)) }
    ensures limit { IfOk result (λ text. length text ≤ 1048576) }
    ensures too_big { IsErrOf result FileFault.TooBig → IsTooBig (F.told files.old name.now) }

    ensures cause { CauseOf is_file_fault (F.faults files.old) (F.faults files.new) result }

    ensures lent { (n : List ℕ) → F.lent files.new n ≡ F.lent files.old n }
    ensures told { (n : List ℕ) → F.told files.new n ≡ F.told files.old n }
{
    let mut bytes = Vec::new(alloc);
    let mut piece = [0u8; PIECE];
    'pieces: while bytes.len() <= FILE_LIMIT {
        let count = files.read(name, bytes.len() as u64, &mut piece)?;
        if count == 0 {
            return Ok(Text::from(bytes));
        }
        bytes.extend_from_slice(&piece[..count])?;
    }
    Err(FileFault::TooBig)
}

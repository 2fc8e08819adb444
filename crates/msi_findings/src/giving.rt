//! Whether a page gives back the bytes of a text.
ghost use Rattle.std.specs.Prelude.{◌≡◌, IfErr, IfOk};
ghost use Rattle.cfb_medium.specs.declared.error.Error.TheVariants.{Memory};
ghost use Rattle.msi_pool.specs.PoolReading.{text_round_trips};

use cfb_medium::Error;
use msi_texts::CodePage;
use std::alloc::Global;

// Whether the bytes of a text are those that it is written as under the page. The one error is `Memory`.
pub(crate) fn gives_back(alloc: Global, codepage: CodePage, bytes: &[u8]) -> Result<bool, Error>
    ensures ok { IfOk result (λ gives. gives ≡ text_round_trips codepage bytes.now) }
    ensures errors { IfErr result (λ e. e ≡ Memory) }
{
    let text = codepage.decode(alloc, bytes)?;
    let again = codepage.encode(alloc, text.as_str())?;
    Ok(again.as_slice() == bytes)
}

// The full check of a file.
ghost use Rattle.std.specs.Prelude.{◌≡◌};
ghost use Rattle.base.specs.Answer.{outcome_of};
ghost use Rattle.base.specs.Refusal.{accepted};
ghost use Rattle.blocks.specs.Directory.{directory};
ghost use Rattle.tiles.specs.Validate.{open_all, validate};

use crate::tile;
use base::Refusal;
use blocks::directory::read_directory;
use blocks::header::Header;

// Opens all tiles of a file whose directory is accepted.
fn open_all(f: &[u8], h: Header) -> Result<Header, Refusal>
    requires { directory f.now ≡ accepted h }
    ensures { outcome_of result ≡ open_all f.now h }
{
    for t in 0..h.tiles {
        tile::open_tile(f, h, t)?;
    }
    Ok(h)
}

// The full check: the header of a valid file, or the first refusal. By `match` and no `?`: an edit replaces what is
// passed on, and nothing else.
#[tactic(auto, unfolding(crate::specs::Validate::validate))]
pub fn validate(f: &[u8]) -> Result<Header, Refusal>
    ensures { outcome_of result ≡ validate f.now }
{
    match read_directory(f) {
        Ok(h) => open_all(f, h),
        Err(refusal) => Err(refusal),
    }
}

// What a body packs of a value: its ZigZag.
ghost use Rattle.std.specs.Prelude.{map, refl};
ghost use Rattle.format.specs.Keys.{zigzag, unzigzag};

use places::packed::Coding;
use places::unpacked::Decoding;

#[derive(Drop)]
pub(crate) struct ZigZags;

impl Coding for ZigZags {
    ghost code = { λ _. zigzag };

    fn code(&mut self, value: i64) -> u64 {
        number::zigzag_encode(value)
    }
}

impl Decoding for ZigZags {
    ghost values = { λ _ codes _. map unzigzag codes };

    fn value(&mut self, code: u64, old: i64) -> i64 {
        number::zigzag_decode(code)
    }

    ghost none = { λ _ _. refl };
}

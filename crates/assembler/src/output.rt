// The image's bytes, put one behind the other.
ghost use Rattle.std.specs.Prelude.{◌≡◌, ◌+◌, ◌*◌, ◌<◌, ◌≤◌, true, [], ◌∷◌, ◌++◌, length};
ghost use Rattle.syntax.specs.declared.cuts.Separator.TheVariants.{Space};
ghost use Rattle.syntax.specs.Cuts.{pieces};
ghost use Rattle.syntax.specs.Data.{bytes_of, text_bytes, number_bytes, all_fit};
ghost use Rattle.assembler.specs.Tables.{filled, size, Spared};
ghost use Rattle.assembler.specs.Images.{word_bytes};

use crate::table::Table;

pub(crate) fn put_bytes(bytes: &[u8], out: &mut Table<u8>)
    requires { out.old.count + length bytes.now ≤ size out.old }
    ensures put { filled out.new ≡ filled out.old ++ bytes.now }
    ensures count { out.new.count ≡ out.old.count + length bytes.now }
    ensures spared { Spared out.old out.new }
{
    for byte in bytes {
        let _ = out.push(*byte);
    }
}

/// Puts words behind what the image holds, high byte first.
pub(crate) fn put_words(words: &[u16], out: &mut Table<u8>)
    requires { out.old.count + 2 * length words.now ≤ size out.old }
    ensures put { filled out.new ≡ filled out.old ++ word_bytes words.now }
    ensures count { out.new.count ≡ out.old.count + 2 * length words.now }
    ensures spared { Spared out.old out.new }
{
    for word in words {
        put_bytes(&word.to_be_bytes(), out);
    }
}

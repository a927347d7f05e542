// "Defaults (LangRef)", as words: before any spec, and with every refusal.
ghost use Rattle.std.specs.Prelude.{◌≤◌, length};
ghost use Rattle.layout.specs.Defaults.{default_layout};
ghost use Rattle.datalayout.specs.Strings.{refused_with};
ghost use Rattle.flat.specs.Puts.{max_words};
ghost use Rattle.flat.specs.Reads.{Reads};
ghost use Rattle.flat.specs.Held.{Held};

use crate::read::Laid;
use datalayout::error::Error;
use table::buffer::put_words;

const DEFAULT_WORDS: usize = 66;

// Nine words, no width, no space, twelve type rows, one pointer row; zeros behind them.
// Kept: that there is room stands in three contracts; a struct round the lent words would be made by one caller and opened by three.
pub(crate) fn start(out: &mut [u64])
    requires { max_words ≤ length out.old }
    ensures { Held default_layout out.new }
{
    out.fill(0);
    let words = [
        0, 0, 0, 0, 0, 8, 0, 0, 0, 0, 0, 12, 0, 1, 8, 8, 0, 8, 8, 8, 0, 16, 16, 16, 0, 32, 32, 32,
        0, 64, 32, 64, 2, 16, 16, 16, 2, 32, 32, 32, 2, 64, 64, 64, 2, 128, 128, 128, 1, 64, 64,
        64, 1, 128, 128, 128, 3, 0, 8, 64, 1, 0, 64, 64, 64, 64,
    ];
    put_words(out, &words);
}

// "the layout returned with a refusal is the default one"
pub(crate) fn refuse(out: &mut [u64], error: Error) -> Laid
    requires { max_words ≤ length out.old }
    ensures { Reads (refused_with error) out.old result out.new }
{
    start(out);
    Laid {
        answer: Err(error),
        words: DEFAULT_WORDS,
    }
}

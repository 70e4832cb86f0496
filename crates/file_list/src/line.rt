// The line of a file among many.
ghost use Rattle.std.specs.Prelude.{◌≡◌, length};
ghost use Rattle.wording.specs.Put.{Puts};
ghost use Rattle.file_list.specs.Line.{file_line, unreadable};

use wording::put;

// Room for every line of words of at most 511 bytes and a name of at most 131,072. The `ensures` gives only the length, which lending it as a slice needs.
pub fn room() -> [u8; 131584]
    ensures { 131584 ≡ length result }
{
    [0; 131584]
}

// Puts a verdict's words and a file's name as one line behind the first `at` bytes, and answers how many bytes stand there then.
pub fn put_line(words: &[u8], name: &[u8], out: &mut [u8], at: usize) -> usize
    ensures { Puts (file_line words.now name.now) out.old at result out.new }
{
    let behind_words = put::shown(words, b' ', out, at);
    let behind_name = put::shown(name, b'?', out, behind_words);
    put::text(b"\n", out, behind_name)
}

// The words of a file that has no verdict.
pub fn put_unreadable(out: &mut [u8], at: usize) -> usize
    ensures { Puts unreadable out.old at result out.new }
{
    put::text(b"UNREADABLE\n", out, at)
}

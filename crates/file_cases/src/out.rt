// What stands at OUT.
use crate::folder;
use cases::{answer, file, hash, print};
use files::{opening, reading};
use std::fs;
use std::fs::File;

// Prints a length and a hash, a line.
pub fn print_hash(bytes: &[u8]) {
    print::number(bytes.len() as u64);
    print::text(b" bytes, hash");
    answer::next_number(hash::hash(bytes));
    print::byte(b'\n');
}

// Prints bytes in hex, a line.
pub fn print_hex(bytes: &[u8]) {
    print::hex(bytes);
    print::byte(b'\n');
}

fn print_content<F: Fn(&[u8])>(opened: File, print: F)
    requires { F.IsAlwaysCallable print }
{
    let mut reader = opened;
    let mut buffer = file::room();
    match reading::read_all(&mut reader, &mut buffer) {
        Ok(Some(size)) => print(&buffer[..size]),
        Ok(None) => print::text(b"OUT is too long\n"),
        Err(_) => print::text(b"OUT is a folder\n"),
    }
}

fn print_out<F: Fn(&[u8])>(rt: &HostRuntime, path: &[u8], print: F)
    requires { F.IsAlwaysCallable print }
{
    match opening::open(rt, path) {
        Ok(opened) => print_content(opened, print),
        Err(_) => print::text(b"no OUT\n"),
    }
}

// Prints what stands at a path, a folder or the content of a file in this way, and removes it.
pub fn show<F: Fn(&[u8])>(rt: &HostRuntime, path: &[u8], print: F)
    requires { F.IsAlwaysCallable print }
{
    print_out(rt, path, print);
    let text = folder::text_of(path);
    let _file = fs::remove_file(rt, text);
    let _folder = fs::remove_dir(rt, text);
}

// What reaches the system, by the bytes of a name or a text: standard output, streams that are read, arguments, files and folders.
#![tactic(auto)]

ghost use Rattle.std.specs.Prelude.{ℕ, ◌≤◌, ◌≡◌, List, length, replicate};
ghost use Rattle.std.specs.Fn.{FnOnceReturnsAt};
ghost use Rattle.io.specs.Counts.{IsPrefixLen};

use std::env::{Env, FillError};
use std::fs::{Files, OpenFile, OpenOptions};
use std::io::{Error, ErrorKind, Read, Result, Write};
use std::{fs, str};

// What is left to read of a stream: nothing, something, or it cannot be read.
#[derive(Clone, Copy)]
pub enum Rest {
    Nothing,
    Something,
    Failed,
}

// A buffer of so many zeros.
pub fn zeros<const N: usize>() -> [u8; N]
    ensures length { N ≡ length result }
    ensures value { result ≡ replicate N 0 }
{
    [0; N]
}

// Bytes to standard output. That they could not be written is not told.
pub fn show(rt: &impl Print, text: &[u8]) {
    let _ = rt.write_all(text);
}

// A number to standard output, in decimal.
pub fn show_decimal(rt: &impl Print, n: u64) {
    let mut digits = [0u8; 20];
    let k = io::decimal(n, &mut digits);
    show(rt, &digits[..k]);
}

// A number to standard output, in hexadecimal, in so many digits at least.
pub fn show_hexadecimal(rt: &impl Print, n: u64, width: usize) {
    let mut digits = [0u8; 16];
    let k = io::hex(n, width, &mut digits);
    show(rt, &digits[..k]);
}

// A name, and a number in decimal.
pub fn named_decimal(rt: &impl Print, name: &[u8], n: u64) {
    show(rt, name);
    show_decimal(rt, n);
}

// A name, and a number in hexadecimal, in so many digits at least.
pub fn named_hexadecimal(rt: &impl Print, name: &[u8], n: u64, width: usize) {
    show(rt, name);
    show_hexadecimal(rt, n, width);
}

// Reads until the buffer is full, the stream ends or a read fails. The bytes are at the buffer's front; the answer is how many they are.
pub fn read_full(from: &mut impl Read, buffer: &mut [u8]) -> usize
    ensures { IsPrefixLen result buffer.new }
{
    let mut done = 0;
    while done < buffer.len() {
        match from.read(&mut buffer[done..]) {
            Ok(0) | Err(_) => break,
            Ok(n) => done += n,
        }
    }
    done
}

// What one more read gives.
pub fn what_follows(from: &mut impl Read) -> Rest {
    let mut byte = [0u8; 1];
    match from.read(&mut byte) {
        Ok(0) => Rest::Nothing,
        Ok(_) => Rest::Something,
        Err(_) => Rest::Failed,
    }
}

// Whether all of a file was read: it has ended, or has more than the buffer could take.
pub fn is_read(from: &mut impl Read, full: bool) -> bool {
    match what_follows(from) {
        Rest::Nothing => true,
        Rest::Something => full,
        Rest::Failed => false,
    }
}

// An argument is put at the buffer's front; the answer is how many bytes it has, 0 where it is missing or longer than the buffer.
pub fn argument(rt: &impl Env, i: usize, buffer: &mut [u8]) -> usize
    ensures { IsPrefixLen result buffer.new }
{
    rt.arg(i, buffer).unwrap_or(0)
}

// What an argument is, by a function that reads its text. One that is missing or has more than 16 bytes is read as an empty one.
pub fn argument_as<T, F: FnOnce(&[u8]) -> T>(rt: &impl Env, i: usize, read: F) -> T
    requires { F.IsAlwaysCallable read }
    ensures { (text : List ℕ) × (length text ≤ 16) × FnOnceReturnsAt F.FnOnce read text result }
{
    let mut text = [0u8; 16];
    let n = argument(rt, i, &mut text);
    read(&text[..n])
}

// Whether there is an argument with this number. The program's own name has 0.
pub fn has_argument(rt: &impl Env, i: usize) -> bool {
    let mut byte = [0u8; 1];
    !matches!(rt.arg(i, &mut byte), Err(FillError::NotPresent))
}

// A name as the system's text. One that is not UTF-8 names no file.
fn path(name: &[u8]) -> Result<&str> {
    str::from_utf8(name).map_err(|_| Error::from(ErrorKind::InvalidFilename))
}

// A file or a folder, open for reading.
pub fn open<R: Files>(rt: &R, name: &[u8]) -> Result<R::File> {
    fs::open(rt, path(name)?)
}

// A file that was not there, open for writing.
pub fn create<R: Files>(rt: &R, name: &[u8]) -> Result<R::File> {
    OpenOptions::new()
        .write(true)
        .create_new(true)
        .open(rt, path(name)?)
}

// Whether all the bytes were written.
pub fn write_all(to: &mut impl Write, bytes: &[u8]) -> bool {
    to.write_all(bytes).is_ok()
}

// What an open file or folder holds has reached the device. It is closed.
pub fn sync(file: impl OpenFile + Drop) -> bool {
    file.sync_all().is_ok()
}

pub fn make_folder(rt: &impl Files, name: &[u8]) -> Result<()> {
    fs::create_dir(rt, path(name)?)
}

pub fn remove_folder(rt: &impl Files, name: &[u8]) -> Result<()> {
    fs::remove_dir(rt, path(name)?)
}

pub fn remove_file(rt: &impl Files, name: &[u8]) -> Result<()> {
    fs::remove_file(rt, path(name)?)
}

pub fn rename(rt: &impl Files, from: &[u8], to: &[u8]) -> Result<()> {
    fs::rename(rt, path(from)?, path(to)?)
}

// What was to be opened, removed or renamed is not there.
pub fn is_absent(error: &Error) -> bool {
    error.kind() == ErrorKind::NotFound
}

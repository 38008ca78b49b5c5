// What a program makes of its arguments: options and names, a number in decimal, and a name with an ending.
#![tactic(auto)]

ghost use Rattle.std.specs.Prelude.{◌-◌, ◌≤◌, cond, ◌≡◌, length, take, set};
ghost use Rattle.io.specs.Counts.{IsPrefixLen};
ghost use Rattle.night_arguments.specs.Arguments.{number_of, same_of, joined_of};
ghost use Rattle.night_arguments.specs.Options.{kind_of, kind_number, is_free, names_from, told, call_of};

// The number below 2^32 that a text is, in decimal.
#[tactic(auto, using(crate::proofs::Decimal::same_number))]
pub fn read_number(text: &[u8]) -> Option<u32>
    ensures { result ≡ number_of text.now }
{
    digits::number(10, text)
}

// Whether two texts are the same.
pub fn same(a: &[u8], b: &[u8]) -> bool
    ensures { result ≡ same_of a.now b.now }
{
    a == b
}

// What an argument is that is no option's value: a name, `--`, an option that there is not, or an option, a row each, those that name a file in the
// order of the night's files. `read_call` takes these by their numbers, which are the places in this list, from 0: an option's row is its number less 3.
#[derive(Clone, Copy)]
pub enum Kind {
    Name,
    End,
    Unknown,
    Area,
    Log,
}

impl Kind {
    // The number that `read_call` knows a kind by.
    pub fn number(self) -> u8
        ensures { result ≡ kind_number self }
    {
        self as u8
    }
}

#[tactic(auto, unfolding(crate::specs::Options::kind_of))]
pub fn kind_of(text: &[u8]) -> Kind
    ensures { result ≡ kind_of text.now }
{
    if !text.starts_with(b"--") {
        return Kind::Name;
    }
    if same(text, b"--") {
        return Kind::End;
    }
    if same(text, b"--area") {
        return Kind::Area;
    }
    if same(text, b"--log") {
        return Kind::Log;
    }
    Kind::Unknown
}

// The option of this kind has its value, where it is there and had none.
fn give(kind: u8, value: u8, values: &mut [u8]) -> bool
    ensures value { result ≡ is_free kind values.old }
    ensures values_after { values.new ≡ cond (is_free kind values.old) (set values.old (kind - 3) value) values.old }
{
    if kind < 3 {
        return false;
    }
    let k = (kind - 3) as usize;
    if values.len() <= k {
        return false;
    }
    if values[k] != 0 {
        return false;
    }
    values[k] = value;
    true
}

// Where six names begin behind the first `at` of so many arguments, counted from 1; or 0.
fn names_from(count: usize, at: usize) -> usize
    requires { at ≤ count }
    ensures upper_bound { result ≤ count }
    ensures value { result ≡ names_from count at }
{
    if count - at != 6 {
        return 0;
    }
    at + 1
}

// Where a call's six names begin, counted from 1, by the kinds of its arguments, those of `Kind` as numbers and further ones for further options; 0
// where they are none of a call. Each option's value is told by its number in `values`, which are 0 at the start.
pub fn read_call(kinds: &[u8], values: &mut [u8]) -> u8
    ensures { call_of kinds.now values.old ≡ told result values.new }
{
    if 32 < kinds.len() {
        return 0;
    }
    let mut i = 0;
    // A `while`, since an option takes its value along: two arguments a turn.
    while i + 1 < kinds.len() {
        let kind = kinds[i];
        if kind == 0 {
            return names_from(kinds.len(), i) as u8;
        }
        if kind == 1 {
            return names_from(kinds.len(), i + 1) as u8;
        }
        if !give(kind, (i + 2) as u8, values) {
            return 0;
        }
        i += 2;
    }
    0
}

// A name and an ending are put at the buffer's front; the answer is how many bytes they are, 0 where the buffer is too short.
// The length stands beside the buffer, which the caller lends: there is no heap, and `joined_of` goes by its room.
pub fn joined(name: &[u8], ending: &[u8], buffer: &mut [u8]) -> usize
    ensures prefix_len { IsPrefixLen result buffer.new }
    ensures buffer_after { take result buffer.new ≡ joined_of name.now ending.now (length buffer.old) }
{
    if buffer.len() < name.len() {
        return 0;
    }
    if buffer.len() - name.len() < ending.len() {
        return 0;
    }
    numbers::copy(name, buffer);
    numbers::copy(ending, &mut buffer[name.len()..]);
    name.len() + ending.len()
}

// The names of a night's files: which names a call may have, and those that a night commits along, by which a later call can put its files in
// place (docs/NIGHT.md).
#![tactic(auto)]

ghost use Rattle.std.specs.Prelude.{◌+◌, ◌-◌, ◌≤◌, ◌≡◌, ◌==◌, length, take, count_by};
ghost use Rattle.std.specs.Fn.{FnOnceReturnsAt};
ghost use Rattle.io.specs.Counts.{IsPrefixLen};
ghost use Rattle.night_arguments.specs.Arguments.{joined_of};
ghost use Rattle.night_names.specs.Names.{last_at, is_place, is_beside, is_with, is_of_state, is_read};
ghost use Rattle.night_names.specs.Names.{are_names, parts_of, with_name, names_of, name_at};
ghost use Rattle.night_names.specs.Names.{files_of, none_empty, are_recorded, is_among, is_further, is_area, named_place, place_of, work_of};

fn is_slash(byte: &u8) -> bool
    ensures { result ≡ (byte.now == 47) }
{
    *byte == b'/'
}

// Where a name's last part begins, after its last `/`.
pub fn last_at(name: &[u8]) -> usize
    ensures prefix_len { IsPrefixLen result name.now }
    ensures value { result ≡ last_at name.now }
{
    let mut at = 0;
    for i in 0..name.len() {
        if is_slash(&name[i]) {
            at = i + 1;
        }
    }
    at
}

// Whether a file can be put at this name, and the name takes its endings.
#[tactic(auto, unfolding(crate::specs::Names::is_place))]
fn is_place(name: &[u8]) -> bool
    ensures { result ≡ is_place name.now }
{
    let at = last_at(name);
    (at < name.len()) & (name.len() <= 3833) & (name.len() - at <= 249)
}

// Whether two names have one text up to the last `/`.
#[tactic(auto, unfolding(crate::specs::Names::is_beside))]
fn is_beside(name: &[u8], state: &[u8]) -> bool
    ensures { result ≡ is_beside name.now state.now }
{
    let a = last_at(name);
    let b = last_at(state);
    &name[..a] == &state[..b]
}

// Whether a name is STATE with this ending.
#[tactic(auto, unfolding(crate::specs::Names::is_with))]
fn is_with(name: &[u8], state: &[u8], ending: &[u8]) -> bool
    ensures { result ≡ is_with name.now state.now ending.now }
{
    let mut buffer = io::buffer();
    let n = night_arguments::joined(state, ending, &mut buffer);
    name == &buffer[..n]
}

// Whether a name is STATE or one of the names that a night makes of it.
#[tactic(auto, unfolding(crate::specs::Names::is_of_state))]
fn is_of_state(name: &[u8], state: &[u8]) -> bool
    ensures { result ≡ is_of_state name.now state.now }
{
    let itself = name == state;
    let rest = is_with(name, state, b".rest");
    let names = is_with(name, state, b".names");
    let area = is_with(name, state, b".area");
    let night = is_with(name, state, b".night");
    let done = is_with(name, state, b".done");
    itself | rest | names | area | night | done
}

// Whether a session of this name is none of the night's other files.
#[tactic(auto, unfolding(crate::specs::Names::is_read))]
fn is_read(session: &[u8], image: &[u8], state: &[u8], output: &[u8]) -> bool
    ensures { result ≡ is_read session.now image.now state.now output.now }
{
    let as_image = session == image;
    let as_output = session == output;
    let of_state = is_of_state(session, state);
    let rest = is_with(session, state, b".rest");
    (0 < session.len()) & !as_image & !as_output & (!of_state | rest)
}

// Whether a call may have these four names.
#[tactic(auto, unfolding(crate::specs::Names::are_names))]
pub fn are_names(image: &[u8], session: &[u8], state: &[u8], output: &[u8]) -> bool
    ensures { result ≡ are_names image.now session.now state.now output.now }
{
    let image_place = is_place(image);
    let state_place = is_place(state);
    let output_place = is_place(output);
    let image_beside = is_beside(image, state);
    let output_beside = is_beside(output, state);
    let image_taken = is_of_state(image, state);
    let output_taken = is_of_state(output, state);
    let one = image == output;
    let read = is_read(session, image, state, output);
    image_place
        & state_place
        & output_place
        & image_beside
        & output_beside
        & !image_taken
        & !output_taken
        & !one
        & read
}

// The names that a night commits along, and the last part of a further file's after them.
#[tactic(auto, using(crate::proofs::Laws::with_is))]
pub fn with_name(names: &[u8], file: &[u8], buffer: &mut [u8]) -> usize
    ensures prefix_len { IsPrefixLen result buffer.new }
    ensures buffer_after { take result buffer.new ≡ with_name names.now file.now (length buffer.old) }
{
    let at = last_at(file);
    let mut front = io::buffer();
    let n = night_arguments::joined(names, b"/", &mut front);
    night_arguments::joined(&front[..n], &file[at..], buffer)
}

// The names that every night's begin with: the last parts of IMAGE and OUTPUT.
#[tactic(auto, using(crate::proofs::Laws::names_is))]
pub fn record_names(image: &[u8], output: &[u8], buffer: &mut [u8]) -> usize
    ensures prefix_len { IsPrefixLen result buffer.new }
    ensures buffer_after { take result buffer.new ≡ names_of image.now output.now (length buffer.old) }
{
    let at = last_at(image);
    with_name(&image[at..], output, buffer)
}

// How many `/` the names have between them.
#[tactic(auto, using(crate::proofs::Cuts::parts_count))]
fn slashes(names: &[u8]) -> usize
    ensures value { result ≡ count_by (λ c. c == 47) names.now }
    ensures upper_bound { result ≤ length names.now }
    ensures names_len { length (parts_of names.now) ≡ result + 1 }
{
    names.iter().filter(|byte| **byte == b'/').count()
}

// How many files a night with these names has; 255 where they are too many. So says `files_of`, and `night_steps::next` counts up to it.
#[tactic(auto, unfolding(crate::specs::Names::files_of))]
pub fn files(names: &[u8]) -> u8
    ensures { result ≡ files_of names.now }
{
    (slashes(names).min(251) + 4) as u8
}

// Whether each of the names has a byte.
fn none_empty(names: &[u8]) -> bool
    ensures { result ≡ none_empty (parts_of names.now) }
{
    names.split(is_slash).all(|part| !part.is_empty())
}

// Whether a text is two names or more, with a `/` between them.
#[tactic(auto, unfolding(crate::specs::Names::are_recorded))]
pub fn are_recorded(names: &[u8]) -> bool
    ensures { result ≡ are_recorded names.now }
{
    let n = files(names);
    let whole = none_empty(names);
    (5 <= n) & (n <= 254) & whole
}

// The name with this number.
fn name_at(k: usize, names: &[u8]) -> &[u8]
    ensures { result.now ≡ name_at k names.now }
{
    names.split(is_slash).nth(k).unwrap_or(b"")
}

// Whether a name is one of the names.
fn is_among(name: &[u8], names: &[u8]) -> bool
    ensures { result ≡ is_among name.now (parts_of names.now) }
{
    names.split(is_slash).any(|part| name == part)
}

// Whether a night may have this further file.
#[tactic(auto, unfolding(crate::specs::Names::is_further))]
pub fn is_further(file: &[u8], session: &[u8], state: &[u8], names: &[u8]) -> bool
    ensures { result ≡ is_further file.now session.now state.now names.now }
{
    let at = last_at(file);
    let place = is_place(file);
    let beside = is_beside(file, state);
    let of_state = is_of_state(file, state);
    let read = file == session;
    let among = is_among(&file[at..], names);
    place & beside & !of_state & !read & !among
}

// Whether a night may have this area.
#[tactic(auto, unfolding(crate::specs::Names::is_area))]
pub fn is_area(file: &[u8], session: &[u8], state: &[u8], names: &[u8]) -> bool
    ensures { result ≡ is_area file.now session.now state.now names.now }
{
    let of_state = is_with(file, state, b".area");
    let further = is_further(file, session, state, names);
    of_state | further
}

// The place of the file that has the name with this number.
#[tactic(auto, using(crate::proofs::Laws::named_is))]
fn named_place(k: usize, state: &[u8], names: &[u8], buffer: &mut [u8]) -> usize
    ensures prefix_len { IsPrefixLen result buffer.new }
    ensures buffer_after { take result buffer.new ≡ named_place k state.now names.now (length buffer.old) }
{
    let folder = last_at(state);
    night_arguments::joined(&state[..folder], name_at(k, names), buffer)
}

// The place of a night's file, by its number.
#[tactic(auto, unfolding(crate::specs::Names::place_of))]
pub fn place_of(i: u8, state: &[u8], names: &[u8], buffer: &mut [u8]) -> usize
    ensures prefix_len { IsPrefixLen result buffer.new }
    ensures buffer_after { take result buffer.new ≡ place_of i state.now names.now (length buffer.old) }
{
    match i {
        0 => named_place(0, state, names, buffer),
        1 => night_arguments::joined(state, b"", buffer),
        2 => night_arguments::joined(state, b".rest", buffer),
        3 => named_place(1, state, names, buffer),
        4 => night_arguments::joined(state, b".names", buffer),
        _ => named_place((i - 3) as usize, state, names, buffer),
    }
}

// Where the file of a place stands in STATE.night/ or STATE.done/.
#[tactic(auto, using(crate::proofs::Laws::work_is))]
pub fn work_place(state: &[u8], folder: &[u8], place: &[u8], buffer: &mut [u8]) -> usize
    ensures prefix_len { IsPrefixLen result buffer.new }
    ensures buffer_after { take result buffer.new
        ≡ work_of state.now folder.now place.now (length buffer.old) }
{
    let at = last_at(place);
    let mut front = io::buffer();
    let n = night_arguments::joined(state, folder, &mut front);
    night_arguments::joined(&front[..n], &place[at..], buffer)
}

// What a function makes of a name with an ending: of no bytes where the two are longer than a path may be.
pub fn with_joined<T, F: FnOnce(&[u8]) -> T>(name: &[u8], ending: &[u8], act: F) -> T
    requires { F.IsAlwaysCallable act }
    ensures { FnOnceReturnsAt F.FnOnce act (joined_of name.now ending.now 4096) result }
{
    let mut path = io::buffer();
    let n = night_arguments::joined(name, ending, &mut path);
    act(&path[..n])
}

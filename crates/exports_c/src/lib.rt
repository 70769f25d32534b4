// What the tablet's Rust or C calls on files, views and times: the functions of `exports`, under their names in C. What each returns and
// leaves in a lent buffer stands in words at the function of `exports`.
#![tactic(auto)]

ghost use Rattle.std.specs.Prelude.{◌≡◌};
ghost use Rattle.files.specs.Merging.{merge_buffer};
ghost use Rattle.exports.specs.Exports.{records_return, records_written, merge_return, save_return, save_written};
ghost use Rattle.exports.specs.Timed.{longest_return, path_return, path_written};
ghost use Rattle.exports.specs.Viewed.{view_return, view_written};

// The adds and links that build the wiring of a file, as requests.
#[unsafe(no_mangle)]
pub extern "C" fn records_of_file(file: &[u8], requests: &mut [u8]) -> u64
    ensures { (result ≡ records_return file.now requests.old)
        × (requests.new ≡ records_written file.now requests.old) }
{
    exports::loaded::records_of_file(file, requests)
}

// Two files as one, the second behind the first.
#[unsafe(no_mangle)]
pub extern "C" fn merge_files<'a>(first: &'a [u8], second: &'a [u8], file: &mut [u8]) -> u64
    ensures { (result ≡ merge_return first.now second.now file.old)
        × (file.new ≡ merge_buffer first.now second.now file.old) }
{
    exports::merged::merge_files(first, second, file)
}

// The file of what a list of requests leaves.
#[unsafe(no_mangle)]
pub extern "C" fn save_records(requests: &[u8], file: &mut [u8]) -> u64
    ensures { (result ≡ save_return requests.now file.old)
        × (file.new ≡ save_written requests.now file.old) }
{
    exports::saved::save_records(requests, file)
}

// The largest sum of times along wires that end at a block of what a list of requests leaves.
#[unsafe(no_mangle)]
pub extern "C" fn longest_of_records<'a>(requests: &'a [u8], times: &'a [u16], block: u32) -> u64
    ensures { result ≡ longest_return requests.now times.now block }
{
    exports::timed::longest_of_records(requests, times, block)
}

// The blocks along wires that have this sum, from the first to the one named, at the start of the lent list.
#[unsafe(no_mangle)]
pub extern "C" fn path_of_records<'a>(
    requests: &'a [u8],
    times: &'a [u16],
    block: u32,
    list: &mut [u32],
) -> u64
    ensures { (result ≡ path_return requests.now times.now block list.old)
        × (list.new ≡ path_written requests.now times.now block list.old) }
{
    exports::timed::path_of_records(requests, times, block, list)
}

// The view of what a list of requests leaves.
#[unsafe(no_mangle)]
pub extern "C" fn view_of_records(requests: &[u8], view: &mut [u8]) -> u64
    ensures { (result ≡ view_return requests.now view.old)
        × (view.new ≡ view_written requests.now view.old) }
{
    exports::viewed::view_of_records(requests, view)
}

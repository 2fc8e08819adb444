//! Paths as text, and as the names from the root on.
ghost use Rattle.cfb_medium.specs.declared.error.Error.TheVariants.{InvalidInput, Memory};
ghost use Rattle.cfb_tree.specs.Paths.{is_back, is_dropped, path_names, path_text};
ghost use Rattle.std.specs.Prelude.{map, string_bytes, IfErr, IfOk, ◌≡◌, ◌⊎◌};

use cfb_medium::Error;
use std::alloc::Global;

// Whether a part of a path is empty or a lone point.
fn is_dropped(part: &str) -> bool
    ensures { result ≡ is_dropped part.now }
{
    part.is_empty() || part == "."
}

// Whether a part of a path takes one name back.
fn is_back(part: &str) -> bool
    ensures { result ≡ is_back part.now }
{
    part == ".."
}

/// The names that a path leads along from the root: what stands between its slashes, without empty parts and `.`; `..` takes
/// one name back. `InvalidInput` where it leads above the root. It doesn't ask whether new names may be such. The one other
/// error is `Memory`.
pub fn name_chain_from_path(alloc: Global, path: &str) -> Result<Vec<&str>, Error>
    ensures names { IfOk result (λ names. path_names path.now
        ≡ Some (map (λ name. name.now) names.items)) }
    ensures errors { IfErr result (λ e. (e ≡ Memory)
        ⊎ ((e ≡ InvalidInput) × (path_names path.now ≡ None))) }
{
    let mut names = Vec::new(alloc);
    for part in path.split('/') {
        if is_dropped(part) {
            continue;
        }
        if is_back(part) {
            if names.pop().is_none() {
                return Err(Error::InvalidInput);
            }
        } else {
            names.push(part)?;
        }
    }
    Ok(names)
}

/// The path of names from the root on: each behind a slash, and a slash for the root. The one error is `Memory`.
pub fn path_from_name_chain(alloc: Global, names: &[&str]) -> Result<String, Error>
    ensures path { IfOk result (λ path. string_bytes path
        ≡ path_text (map (λ name. name.now) names.now)) }
    ensures errors { IfErr result (λ e. e ≡ Memory) }
{
    if names.is_empty() {
        return Ok(String::from_str(alloc, "/")?);
    }
    let mut path = String::new(alloc);
    for name in names {
        path.push('/')?;
        path.push_str(name)?;
    }
    Ok(path)
}

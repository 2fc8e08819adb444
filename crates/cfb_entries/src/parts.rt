//! The parts of a path, one after the other, without memory.
ghost use Rattle.cfb_entries.specs.Parts.{goes_back, parts_left};
ghost use Rattle.cfb_tree.specs.Paths.{is_back, is_dropped, parts_of};
ghost use Rattle.std.specs.List.{list_any};
ghost use Rattle.std.specs.Option.{option_map};
ghost use Rattle.std.specs.Prelude.{Bool, false, MatchOption, None, [], ◌≡◌, ◌∷◌};

// The parts of a path that are still to come: what stands between its slashes.
#[derive(Clone, Copy)]
pub(crate) struct Parts<'a> {
    text: Option<&'a str>,
}

// Whether a part is empty or a lone point.
pub(crate) fn is_dropped(part: &str) -> bool
    ensures { result ≡ is_dropped part.now }
{
    part.is_empty() || part == "."
}

// Whether a part takes one name back.
pub(crate) fn is_back(part: &str) -> bool
    ensures { result ≡ is_back part.now }
{
    part == ".."
}

impl<'a> Parts<'a> {
    // All parts of a path.
    pub(crate) fn of(path: &'a str) -> Parts<'a>
        ensures { parts_left result ≡ parts_of path.now }
    {
        Parts { text: Some(path) }
    }

    // The next part, and those behind it.
    pub(crate) fn split_first(&self) -> Option<(&'a str, Parts<'a>)>
        ensures { MatchOption result (parts_left self.now ≡ [])
            (λ it. parts_left self.now ≡ it.0.now ∷ parts_left it.1) }
    {
        let Some(text) = self.text else {
            return None;
        };
        match text.split_once('/') {
            Some((part, later)) => Some((part, Parts { text: Some(later) })),
            None => Some((text, Parts { text: None })),
        }
    }

    // Whether one of them takes a name back.
    fn has_back(&self) -> bool
        ensures { result ≡ list_any is_back (parts_left self.now) }
    {
        let mut parts = *self;
        'parts: while let Some((part, later)) = parts.split_first() {
            if is_back(part) {
                return true;
            }
            parts = later;
        }
        false
    }

    // The parts behind the one that takes back the name in front of them all, none where that name stays; and whether any of them
    // takes a name back, which need not be asked where it is known that none does.
    pub(crate) fn behind_back(&self, turns: bool) -> (Option<Parts<'a>>, bool)
        requires { turns ≡ false → list_any is_back (parts_left self.now) ≡ false }
        ensures behind { option_map parts_left result.0 ≡ goes_back (parts_left self.now) 0 }
        ensures turns { result.1 ≡ false → list_any is_back (parts_left self.now) ≡ false }
    {
        if !turns {
            return (None, false);
        }
        if !self.has_back() {
            return (None, false);
        }
        match self.text {
            Some(text) => (behind_back_in(text), true),
            None => (None, true),
        }
    }
}

// The parts behind the one that takes back the name in front of a text; none where that name stays.
fn behind_back_in(text: &str) -> Option<Parts<'_>>
    ensures { option_map parts_left result ≡ goes_back (parts_of text.now) 0 }
{
    let mut depth: usize = 0;
    let mut parts = Parts::of(text);
    'parts: for _step in 0..text.len() + 1 {
        let Some((part, later)) = parts.split_first() else {
            return None;
        };
        parts = later;
        if is_dropped(part) {
            continue;
        }
        if !is_back(part) {
            depth += 1;
            continue;
        }
        if depth == 0 {
            return Some(parts);
        }
        depth -= 1;
    }
    None
}

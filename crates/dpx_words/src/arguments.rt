ghost use Rattle.std.specs.Prelude.{◌≡◌, map};
ghost use Rattle.dpx_words.specs.Reading.{workers_named, workers_of};
ghost use Rattle.dpx_words.specs.Seed.{seed_named};

use dpx_base::Workers;

fn named_workers(word: &str) -> Option<Workers>
    ensures { result ≡ workers_named word.now }
{
    match word {
        "one" => Some(Workers::One),
        "lanes" => Some(Workers::Lanes),
        _ => None,
    }
}

/// The workers that the last word names; one for each lane where there is none.
pub(crate) fn read_workers(rest: &[&str]) -> Option<Workers>
    ensures { result ≡ workers_of (map (λ word. word.now) rest.now) }
{
    if rest.is_empty() {
        return Some(Workers::Lanes);
    }
    if rest.len() > 1 {
        return None;
    }
    named_workers(rest[0])
}

const MOST_DIGITS: usize = 10;

/// The number that a word gives: of 32 bits, in one to ten digits without a sign.
pub(crate) fn named_seed(word: &str) -> Option<u32>
    ensures { result ≡ seed_named word.now }
{
    if word.len() > MOST_DIGITS {
        return None;
    }
    if word.starts_with('+') {
        return None;
    }
    word.parse().ok()
}

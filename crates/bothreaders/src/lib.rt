// Both readers over one text: the plain JSON reader's refusal, or what it shows and whether the NSON reader shows the
// same.
#![tactic(auto)]

ghost use Rattle.std.specs.Prelude.{◌≡◌, take};
ghost use Rattle.event.specs.declared.Reason.{Reason};
ghost use Rattle.scan.specs.Compare.{same_bytes};
ghost use Rattle.jsonevent.specs.Entries.{json_leaves};
ghost use Rattle.nson.specs.Entries.{nson_leaves};
ghost use Rattle.bothreaders.specs.Both.{both, both_first, both_second};
ghost use Rattle.bothreaders.specs.inner.Answers.{both_read};

use event::{Reason, Refusal};

// Which readers show the event.
#[derive(Clone, Copy, Debug, PartialEq, Eq)]
pub enum Readers {
    JsonAlone = 1,
    Both = 2,
}

fn too_little_room(need: usize) -> Refusal
    ensures { result ≡ record { reason = Reason.TooLittleRoom; place = need } }
{
    Refusal {
        reason: Reason::TooLittleRoom,
        place: need,
    }
}

// Whether the first n bytes of one buffer are the first m of another.
fn same_start(first: &[u8], n: usize, second: &[u8], m: usize) -> bool
    ensures { result ≡ same_bytes (take n first.now) (take m second.now) }
{
    let a = scan::part(first, 0, n);
    let b = scan::part(second, 0, m);
    scan::same_bytes(a, b)
}

// Both readers write, each into its own buffer; whether what they wrote, n and m bytes, is the same.
fn write_both(s: &[u8], first: &mut [u8], n: usize, second: &mut [u8], m: usize) -> bool
    ensures value { result ≡ same_bytes (take n (nson_leaves s.now first.old)) (take m (json_leaves s.now second.old)) }
    ensures first_after { first.new ≡ nson_leaves s.now first.old }
    ensures second_after { second.new ≡ json_leaves s.now second.old }
{
    let _ = nsonread::read_nson(s, first);
    let _ = jsonread::read_json(s, second);
    same_start(first, n, second, m)
}

// Both readers over one text, with the length of the event's strict form: a refusal, 11 with the length needed last,
// before anything is written.
pub fn read_both(s: &[u8], first: &mut [u8], second: &mut [u8]) -> Result<(Readers, usize), Refusal>
    ensures result_value { both_read result ≡ both s.now first.old second.old }
    ensures first_after { first.new ≡ both_first s.now first.old second.old }
    ensures second_after { second.new ≡ both_second s.now first.old second.old }
{
    let need = jsonread::json_len(s)?;
    if second.len() < need {
        return Err(too_little_room(need));
    }
    let Ok(size) = nsonread::nson_len(s) else {
        let _ = jsonread::read_json(s, second);
        return Ok((Readers::JsonAlone, need));
    };
    if first.len() < size {
        return Err(too_little_room(size));
    }
    if write_both(s, first, size, second, need) {
        return Ok((Readers::Both, need));
    }
    Ok((Readers::JsonAlone, need))
}

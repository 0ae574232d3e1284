// The first checks of a curve record, in the rules' order: its length, mark, version and g, then the length that its version asks.
#![tactic(auto)]

ghost use Rattle.std.specs.Prelude.{◌≡◌, ◌≤◌, length};
ghost use Rattle.rules.specs.Records.{has_genus, has_version, version_of};
ghost use Rattle.record_curve_head.specs.Heads.{Begun, HeadIs};

use curve::Curve;
use refusals::Refusal;

fn is_version(v: u64) -> bool
    ensures { result ≡ has_version v }
{
    if v == Curve::VERSION {
        return true;
    }
    v == Curve::VERSION_WITNESSED
}

fn is_genus(g: u64) -> bool
    ensures { result ≡ has_genus g }
{
    if g == 2 {
        return true;
    }
    g == 3
}

// Version 1.
fn plain_length(s: &[u8]) -> Result<(), Refusal>
    requires { Begun s.now × (version_of s.now ≡ 1) }
    ensures { HeadIs s.now result }
{
    let g = record_bytes::wide(s[Curve::GENUS_AT]) as usize;
    if s.len() != 22 + 16 * g {
        return Err(Refusal::CurveLength);
    }
    Ok(())
}

// Version 2: the record may end before k, k may not be 1 to 15, and the length may not be what k says.
fn witness_length(s: &[u8]) -> Result<(), Refusal>
    requires { Begun s.now × (version_of s.now ≡ 1 → ⊥) }
    ensures { HeadIs s.now result }
{
    let g = record_bytes::wide(s[Curve::GENUS_AT]) as usize;
    if s.len() < 31 + 16 * g {
        return Err(Refusal::CurveLength);
    }
    let k = record_bytes::wide(s[30 + 16 * g]) as usize;
    if k < 1 {
        return Err(Refusal::Witness);
    }
    if refusals::MOST_WITNESS < k {
        return Err(Refusal::Witness);
    }
    if s.len() != 31 + 16 * g + 8 * k {
        return Err(Refusal::CurveLength);
    }
    Ok(())
}

pub fn check_head(s: &[u8]) -> Result<(), Refusal>
    ensures { HeadIs s.now result }
{
    if s.len() < 6 {
        return Err(Refusal::CurveLength);
    }
    if !record_bytes::marked(s, Curve::MARK) {
        return Err(Refusal::Mark);
    }
    let version = record_bytes::wide(s[3]) * 256 + record_bytes::wide(s[4]);
    if !is_version(version) {
        return Err(Refusal::Version);
    }
    if !is_genus(record_bytes::wide(s[Curve::GENUS_AT])) {
        return Err(Refusal::Genus);
    }
    if version == Curve::VERSION {
        return plain_length(s);
    }
    witness_length(s)
}

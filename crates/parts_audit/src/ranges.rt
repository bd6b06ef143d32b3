// The ends of ranges.
ghost use Rattle.std.specs.Prelude.{◌≡◌};
ghost use Rattle.parts_audit.specs.Range as spec;

// The lower of two numbers.
pub fn lesser(a: u64, b: u64) -> u64
    ensures { result ≡ spec.lesser a b }
{
    if a < b {
        return a;
    }
    b
}

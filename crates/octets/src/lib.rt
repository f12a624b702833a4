// Numbers as bytes, high byte first: read from the front of a slice, which hands on what stands behind them, and
// written into a lent one.
#![tactic(auto)]

ghost use Rattle.std.specs.Prelude.{◌≡◌, ℕ, ◌+◌, ◌≤◌, ◌<◌, List, ◌++◌, length, take, drop, MatchOption};
ghost use Rattle.std.proofs.Common.{rules};
ghost use Rattle.octets.specs.Form.{two, four, eight};

// A type of numbers that have N bytes each, high byte first.
pub trait Octets<const N: usize> {
    ghost form: { Self → List ℕ };

    fn from_octets(bytes: &[u8; N]) -> Self
        ensures { form result ≡ bytes.now };

    fn octets(self) -> [u8; N]
        ensures { result ≡ form self };

    // So few can be lent as an array.
    ghost few: { N ≤ 8 };
}

impl Octets<2> for u16 {
    ghost form = { two };

    fn from_octets(bytes: &[u8; 2]) -> u16 {
        u16::from_be_bytes(*bytes)
    }

    fn octets(self) -> [u8; 2] {
        u16::to_be_bytes(self)
    }

    ghost few = { Prim.search rules };
}

impl Octets<4> for u32 {
    ghost form = { four };

    fn from_octets(bytes: &[u8; 4]) -> u32 {
        u32::from_be_bytes(*bytes)
    }

    fn octets(self) -> [u8; 4] {
        u32::to_be_bytes(self)
    }

    ghost few = { Prim.search rules };
}

impl Octets<8> for u64 {
    ghost form = { eight };

    fn from_octets(bytes: &[u8; 8]) -> u64 {
        u64::from_be_bytes(*bytes)
    }

    fn octets(self) -> [u8; 8] {
        u64::to_be_bytes(self)
    }

    ghost few = { Prim.search rules };
}

// The number at the front of some bytes, and what stands behind it.
pub fn number_from<T: Octets<N>, const N: usize>(bytes: &[u8]) -> Option<(T, &[u8])>
    ensures { MatchOption result (length bytes.now < N) (λ p. bytes.now ≡ T.form p.0 ++ p.1.now) }
{
    let (first, rest) = bytes.split_first_chunk::<N>()?;
    Some((T::from_octets(first), rest))
}

// Both of these write bytes over those of `out` from `at` on, and say where they end. Callers have found room for the
// whole of what they write, so it is asked for instead of refused half-way. `at` and no slice of what is left: callers
// promise of `out` from its front.
pub fn write_number<T: Octets<N>, const N: usize>(out: &mut [u8], at: usize, n: T) -> usize
    requires { at + N ≤ length out.old }
    ensures ends { result ≡ at + N }
    ensures wrote { take result out.new ≡ take at out.old ++ T.form n }
    ensures kept { drop result out.new ≡ drop result out.old }
{
    write_bytes(out, at, &n.octets())
}

#[tactic(auto, using(std::proofs::lemmas::Slice::overwrites))]
pub fn write_bytes(out: &mut [u8], at: usize, part: &[u8]) -> usize
    requires { at + length part.now ≤ length out.old }
    ensures ends { result ≡ at + length part.now }
    ensures wrote { take result out.new ≡ take at out.old ++ part.now }
    ensures kept { drop result out.new ≡ drop result out.old }
{
    let end = at + part.len();
    out[at..end].copy_from_slice(part);
    end
}

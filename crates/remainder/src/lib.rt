// The remainder by 97 over groups of seven digits (02, slip 4). Digits are put behind those that are held, at most seven at a time.
// Where that makes seven, the group is taken off by itself: it goes behind what is carried, the remainder of that is carried on, and the
// group is counted. What is held at the end, if anything, is the last group, which is shorter. Here are numbers alone: which digits they are of, `iban`
// states (`Holds`).
#![tactic(auto)]

ghost use Rattle.std.specs.Prelude.{◌≡◌, ◌*◌, ◌+◌, ◌%◌, ◌^◌, ◌≤◌, ◌<◌};
ghost use Rattle.remainder.specs.Held.{Fitting, nothing_held, joined, divided_at};

// What is carried from the groups taken off, how many these are, the number of the digits held behind them, and how many those are.
#[derive(Clone, Copy)]
pub struct Held {
    pub carried: u32,
    pub groups: u32,
    pub number: u32,
    pub digits: usize,
}

// The remainder over all groups, and how many they are.
#[derive(Clone, Copy)]
pub struct Divided {
    pub remainder: u32,
    pub groups: u32,
}

static POWERS: [u32; 8] = [1, 10, 100, 1_000, 10_000, 100_000, 1_000_000, 10_000_000];

fn power_of(k: usize) -> u32
    requires { k ≤ 7 }
    ensures { (result ≡ 10 ^ k) × (1 ≤ result) × (result ≤ 10 ^ 7) }
{
    POWERS[k]
}

// A number written behind another, at most seven digits in all.
fn behind(n: u32, power: u32, number: u32) -> u32
    requires { n * power + number < 10 ^ 7 }
    ensures { result ≡ n * power + number }
{
    n * power + number
}

// The remainder of n by 97. A product and a division by 2^37, which is a shift, give the quotient of numbers as small as these
// (`quotient`). The compiler has to be right for all of 32 bits, and takes four instructions more, which the next group waits for.
fn by_97(n: u32) -> u32
    requires { n < 97 * 10 ^ 7 }
    ensures { result ≡ n % 97 }
{
    let m = u64::from(n);
    let quotient = m * 1_416_896_428 / 137_438_953_472;
    (m - quotient * 97) as u32
}

// The remainder that a group behind what is carried leaves.
fn carry(carried: u32, power: u32, group: u32) -> u32
    requires { (carried < 97) × (power ≤ 10 ^ 7) × (group < power) }
    ensures { (result ≡ (carried * power + group) % 97) × (result < 97) }
{
    by_97(carried * power + group)
}

impl Held {
    // Before the first digit.
    pub fn nothing() -> Held
        ensures { result ≡ nothing_held }
    {
        Held {
            carried: 0,
            groups: 0,
            number: 0,
            digits: 0,
        }
    }

    // Digits put behind those held: as one number, and how many they are.
    pub fn put(self, number: u32, digits: usize) -> Held
        requires { Fitting self × (digits ≤ 7) × (number < 10 ^ digits) }
        ensures { result ≡ joined self number digits }
    {
        let count = self.digits + digits;
        if count < 7 {
            return Held {
                number: behind(self.number, power_of(digits), number),
                digits: count,
                ..self
            };
        }
        let rest = count - 7;
        let power = power_of(rest);
        let first = number / power;
        let group = behind(self.number, power_of(digits - rest), first);
        Held {
            carried: carry(self.carried, 10_000_000, group),
            groups: self.groups + 1,
            number: number - first * power,
            digits: rest,
        }
    }

    // At the end: the digits held are the last group, where there are any.
    pub fn ended(self) -> Divided
        requires { Fitting self }
        ensures { result ≡ divided_at self }
    {
        if self.digits == 0 {
            return Divided {
                remainder: self.carried,
                groups: self.groups,
            };
        }
        Divided {
            remainder: carry(self.carried, power_of(self.digits), self.number),
            groups: self.groups + 1,
        }
    }
}

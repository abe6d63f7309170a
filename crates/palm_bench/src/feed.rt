// The calls of a run, made one after another. The table is loaded with every other number from `FIRST` on, so that
// the numbers between them are new prefixes all over the table.
ghost use Rattle.std.specs.Prelude.{◌≡◌, ◌<◌, ◌≤◌, length, All, false};
ghost use Rattle.palm_base.specs.Prefix.{is_no_digit};
ghost use Rattle.palm_bench.specs.declared.plan.TheConstants.{MOST_COUNT};
ghost use Rattle.palm_bench.specs.Kinds.{IsSet, IsDel, IsGet, IsRate, IsList, IsEdit, IsLookUp, IsMixed, IsOfKind};

use palm_base::{Amount, Call, Digits, Limit};

/// The number of nine digits from which prefixes are counted.
const FIRST: u64 = 100_000_000;

/// How many digits a prefix has.
const PREFIX_DIGITS: usize = 9;

/// How many digits a dialled number has.
const NUMBER_DIGITS: usize = 12;

/// The digits that are dialled after a prefix.
const DIALLED_AFTER: u64 = 555;

/// How many numbers can be dialled after a prefix: those of three digits.
const TAILS: u64 = 1_000;

/// Rates are below this.
const RATES: u64 = 1_000;

/// How many rows a List shows at most.
const LISTED: u32 = 8;

/// How far the last prefix of a narrow List is from its first: every other number between them is loaded.
const NARROW: u64 = 16;

/// The numbers that nested prefixes begin: those of nine digits, counted from `FIRST`.
const NUMBERS: u64 = 900_000_000;

/// How many digits a nested prefix has at least.
const NESTED_DIGITS: u64 = 4;

/// How many neighbouring prefixes are edited one after another.
const RUN: u64 = 16;

/// The first state of the random numbers.
const SEED: u64 = 1;

/// What the state of the random numbers is multiplied by, as in Knuth's MMIX.
const FACTOR: u64 = 6_364_136_223_846_793_005;

/// What is added to that.
const INCREMENT: u64 = 1_442_695_040_888_963_407;

/// What the calls of a run are.
#[derive(Clone, Copy, Debug, PartialEq, Eq)]
pub enum Kind {
    /// Sets of rising prefixes.
    Load,
    /// Sets of random prefixes, loaded ones and new ones.
    Sets,
    /// By turns Dels of neighbouring loaded prefixes and Sets of neighbouring new ones, from random ones on.
    Edits,
    /// Gets of random prefixes, loaded ones and others.
    Gets,
    /// Rates of random numbers of twelve digits, which begin with loaded prefixes or with others.
    Rates,
    /// The same on a table of nested prefixes, of four to nine digits.
    Nested,
    /// Lists from random prefixes on that show about eight rows.
    Narrow,
    /// Lists from random prefixes to the last one, which show their first eight rows.
    Wide,
    /// Nine look-ups for each Set: Gets, Rates and narrow Lists by turns.
    Looks,
    /// A look-up for each Set.
    Half,
}

/// Makes the calls of a kind on a table that is loaded with as many rows.
#[derive(Drop)]
pub struct Feed {
    /// What the calls are.
    pub kind: Kind,
    /// Prefixes are numbers below this, counted from `FIRST`.
    span: u64,
    /// How many calls were made.
    made: u64,
    /// The state of a linear congruential generator.
    random: u64,
    /// Where the run of edits under way begins.
    start: u64,
    /// Whether a load is of nested prefixes.
    nested: bool,
    ghost some: { 0 < span },
}

// The last digits of a number, as text.
fn last_digits<const N: usize>(number: u64) -> [u8; N]
    ensures many { length result ≡ N }
    ensures digits { All (λ b. is_no_digit b ≡ false) result }
{
    let mut text = [b'0'; N];
    let mut rest = number;
    for place in 0..N {
        text[N - 1 - place] = b'0' + (rest % 10) as u8;
        rest /= 10;
    }
    text
}

// The prefix of nine digits that is a number counted from `FIRST`.
fn prefix_of(number: u64) -> Digits
    ensures { length result ≡ PREFIX_DIGITS }
{
    let text = last_digits::<PREFIX_DIGITS>(number.wrapping_add(FIRST));
    let Ok(prefix) = Digits::read(&text) else {
        unreachable!()
    };
    prefix
}

// A dialled number of twelve digits: the prefix of nine that is a number counted from `FIRST`, and three digits more.
fn dialled(number: u64) -> Digits
    ensures { length result ≡ NUMBER_DIGITS }
{
    let text = last_digits::<NUMBER_DIGITS>(
        number
            .wrapping_add(FIRST)
            .wrapping_mul(TAILS)
            .wrapping_add(DIALLED_AFTER),
    );
    let Ok(number) = Digits::read(&text) else {
        unreachable!()
    };
    number
}

fn set(number: u64, rate: u64) -> Call
    ensures { IsSet result }
{
    let Some(rate) = Amount::new(rate % RATES) else {
        unreachable!()
    };
    Call::Set {
        prefix: prefix_of(number),
        rate,
    }
}

fn del(number: u64) -> Call
    ensures { IsDel result }
{
    Call::Del {
        prefix: prefix_of(number),
    }
}

fn get(number: u64) -> Call
    ensures { IsGet result }
{
    Call::Get {
        prefix: prefix_of(number),
    }
}

fn rate(number: u64) -> Call
    ensures { IsRate result }
{
    Call::Rate {
        number: dialled(number),
    }
}

fn list(from: u64, to: u64) -> Call
    ensures { IsList result }
{
    let Some(limit) = Limit::new(LISTED) else {
        unreachable!()
    };
    Call::List {
        from: prefix_of(from),
        to: prefix_of(to),
        limit,
    }
}

impl Feed {
    /// The calls of a kind on a table of as many loaded rows, or those that load it, with nested prefixes or with
    /// rising ones.
    pub fn new(kind: Kind, rows: u64, nested: bool) -> Feed
        requires some { 1 ≤ rows }
        requires few { rows ≤ MOST_COUNT }
        ensures { result.kind ≡ kind }
    {
        Feed {
            kind,
            span: 2 * rows,
            made: 0,
            random: SEED,
            start: 0,
            nested,
        }
    }

    // A random number below a bound.
    fn draw_below(&mut self, bound: u64) -> u64
        requires some { 0 < bound }
        ensures below { result < bound }
        ensures kind { self.new.kind ≡ self.old.kind }
    {
        self.random = self.random.wrapping_mul(FACTOR).wrapping_add(INCREMENT);
        // The upper half, whose bits repeat after far more numbers than the lower ones.
        (self.random >> 32) % bound
    }

    // A random number below the span.
    fn draw(&mut self) -> u64
        ensures kind { self.new.kind ≡ self.old.kind }
    {
        self.draw_below(self.span)
    }

    // The Set of a random prefix of four to nine digits.
    fn set_nested(&mut self, turn: u64) -> Call
        ensures set { IsSet result }
        ensures kind { self.new.kind ≡ self.old.kind }
    {
        let digits = NESTED_DIGITS + turn % (PREFIX_DIGITS as u64 + 1 - NESTED_DIGITS);
        let prefix = prefix_of(self.draw_below(NUMBERS)).front(digits as u32);
        let Some(rate) = Amount::new(turn % RATES) else {
            unreachable!()
        };
        Call::Set { prefix, rate }
    }

    // A look-up: a Get, a Rate or a narrow List, by turns.
    fn look_up(&mut self, turn: u64) -> Call
        ensures look_up { IsLookUp result }
        ensures kind { self.new.kind ≡ self.old.kind }
    {
        let number = self.draw();
        match turn % 3 {
            0 => get(number),
            1 => rate(number),
            _ => list(number, number.wrapping_add(NARROW)),
        }
    }

    // A Set where the number of the call is one of these, and else a look-up.
    fn mixed(&mut self, turn: u64, each: u64) -> Call
        requires some { 0 < each }
        ensures mixed { IsMixed result }
        ensures kind { self.new.kind ≡ self.old.kind }
    {
        if turn % each == 0 {
            return set(self.draw(), turn);
        }
        self.look_up(turn)
    }

    // A List from a random prefix on, narrow or to the last prefix.
    fn list_on(&mut self, narrow: bool) -> Call
        ensures list { IsList result }
        ensures kind { self.new.kind ≡ self.old.kind }
    {
        let number = self.draw();
        let to = if narrow {
            number.wrapping_add(NARROW)
        } else {
            NUMBERS - 1
        };
        list(number, to)
    }

    // The edit with this number among all calls.
    fn edit(&mut self, turn: u64) -> Call
        ensures edit { IsEdit result }
        ensures kind { self.new.kind ≡ self.old.kind }
    {
        if turn % RUN == 0 {
            self.start = self.draw() / 2;
        }
        let number = self.start.wrapping_add(turn % RUN).wrapping_mul(2);
        if turn / RUN % 2 == 0 {
            return del(number);
        }
        set(number.wrapping_add(1), turn)
    }

    /// The next call.
    pub fn next(&mut self) -> Call
        ensures call { IsOfKind self.old.kind result }
        ensures kind { self.new.kind ≡ self.old.kind }
    {
        let turn = self.made;
        self.made = turn.wrapping_add(1);
        match self.kind {
            Kind::Load if self.nested => self.set_nested(turn),
            Kind::Load => set(turn.wrapping_mul(2), turn),
            Kind::Sets => set(self.draw(), turn),
            Kind::Edits => self.edit(turn),
            Kind::Gets => get(self.draw()),
            Kind::Rates => rate(self.draw()),
            Kind::Nested => rate(self.draw_below(NUMBERS)),
            Kind::Narrow => self.list_on(true),
            Kind::Wide => self.list_on(false),
            Kind::Looks => self.mixed(turn, 10),
            Kind::Half => self.mixed(turn, 2),
        }
    }
}

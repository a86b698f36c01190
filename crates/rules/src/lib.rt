// Why a figure is what it is: the rule that gave ΔP and the rule that gave I of an accepted case.
// The near field and 0.34 are told by the exact tests of `guidance`, the smaller of two figures by intervals that lie apart.
#![tactic(auto)]

ghost use Rattle.std.specs.Prelude.{◌≡◌};
ghost use Rattle.guidance.specs.AirPressure.{air_of};
ghost use Rattle.guidance.specs.Cases.{Accepted};
ghost use Rattle.refusals.specs.Told.{filled_to};
ghost use Rattle.blast.specs.Promises.{Roundable};
ghost use Rattle.rules.specs.Words.{number, words};
ghost use Rattle.rules.specs.Rules.{detonation_rule, RulesOf, Answers, FromFrame, FromLine};
ghost use Rattle.rules.specs.Deciding.{deflagration_rule, Decided, Burning, Acceptable};

use blast::Explosion;
use frame::Refusal;
use guidance::{Case, Setting};
use layout::Ends;
use span::Span;

// What gave a figure.
#[derive(Clone, Copy)]
pub enum Rule {
    NearField,
    Detonation,
    Deflagration,
    DeflagrationAt034,
    // whole numbers around both figures, which overlap
    Undecided {
        deflagration: Ends,
        detonation: Ends,
    },
}

// What gave ΔP, and what gave I.
#[derive(Clone, Copy)]
pub struct Rules {
    pub pressure: Rule,
    pub impulse: Rule,
}

impl Rule {
    // 0 for "undecided".
    pub fn number(self) -> u64
        ensures { result ≡ number self }
    {
        match self {
            Rule::Undecided { .. } => 0,
            Rule::NearField => 1,
            Rule::Detonation => 2,
            Rule::Deflagration => 3,
            Rule::DeflagrationAt034 => 4,
        }
    }

    // The rule in words, filled with zeros to 28 bytes.
    pub fn words(self) -> [u8; 28]
        ensures { result ≡ filled_to 28 (words self) }
    {
        match self {
            Rule::NearField => *b"near-field value\0\0\0\0\0\0\0\0\0\0\0\0",
            Rule::Detonation => *b"detonation formula\0\0\0\0\0\0\0\0\0\0",
            Rule::Deflagration => *b"deflagration formula\0\0\0\0\0\0\0\0",
            Rule::DeflagrationAt034 => *b"deflagration formula at 0.34",
            Rule::Undecided { .. } => *b"undecided\0\0\0\0\0\0\0\0\0\0\0\0\0\0\0\0\0\0\0",
        }
    }
}

fn detonation_rule(near: bool) -> Rule
    ensures { result ≡ detonation_rule near }
{
    if near {
        Rule::NearField
    } else {
        Rule::Detonation
    }
}

fn deflagration_rule(under: bool) -> Rule
    ensures { result ≡ deflagration_rule under }
{
    if under {
        Rule::DeflagrationAt034
    } else {
        Rule::Deflagration
    }
}

// The rule of the smaller of two figures, by deflagration in f and by detonation in d.
fn smaller_of(f: Span, d: Span, under: bool, near: bool) -> Rule
    requires { (Roundable f) × (Roundable d) }
    ensures { Decided f d under near result }
{
    if span::is_below(f, d) {
        return deflagration_rule(under);
    }
    if span::is_below(d, f) {
        return detonation_rule(near);
    }
    let deflagration = blast::ends(f);
    let detonation = blast::ends(d);
    Rule::Undecided {
        deflagration,
        detonation,
    }
}

// In ranges 2 to 6.
fn rules_by_figures(x: &Explosion, near: bool) -> Rules
    requires { Burning x.now near }
    ensures { RulesOf x.now.at.air x.now.at.case result }
{
    let under = x.at.is_under_034();
    let figures = x.figures();
    let f = figures.deflagration;
    let d = figures.detonation;
    let pressure = smaller_of(f.pressure, d.pressure, under, near);
    let impulse = smaller_of(f.impulse, d.impulse, under, near);
    Rules { pressure, impulse }
}

fn rules_of(c: Case) -> Rules
    requires { Accepted (air_of c) c }
    ensures { RulesOf (air_of c) c result }
{
    let at = Setting::in_own_air(c);
    let near = at.is_near_field();
    if at.cloud.range < 2 {
        let rule = detonation_rule(near);
        return Rules {
            pressure: rule,
            impulse: rule,
        };
    }
    let x = Explosion::of(at);
    rules_by_figures(&x, near)
}

// The rules of an accepted case; a refusal stands.
fn answer_to(verdict: Result<Case, Refusal>) -> Result<Rules, Refusal>
    requires { Acceptable verdict }
    ensures { Answers verdict result }
{
    let c = verdict?;
    Ok(rules_of(c))
}

// The rules of a case given as a frame's bytes. Where a name and "undecided" both fit, the answer is open.
pub fn from_frame(frame: &[u8]) -> Result<Rules, Refusal>
    ensures { FromFrame frame.now result }
{
    answer_to(frame::decide_frame(frame, frame::ANSWER))
}

// The same for a case given as a line.
pub fn from_line(line: &[u8]) -> Result<Rules, Refusal>
    ensures { FromLine line.now result }
{
    answer_to(frame::decide_line(line, frame::ANSWER))
}

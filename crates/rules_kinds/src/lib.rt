// Values looked through by a table of kinds, which is made once for many values.
// Any table may be lent; whoever lends that of `kinds` is answered what `judge` answers.
// A table of another length than 256 tells nothing: the value is then looked through byte by byte.
#![tactic(auto)]

ghost use Rattle.std.specs.Prelude.{◌≡◌, cond, length};
ghost use Rattle.rules.specs.declared.Fault.TheVariants.{Breaks};
ghost use Rattle.rules.specs.Values.{by_class, holds, verdict_told};
ghost use Rattle.rules.specs.Kinds.{kind_table, worst_in, within, judged_by};

use rules::{Fault, Rule};

// The kind of each byte: 0 a digit, 1 other text, 3 any other.
const KINDS: [u8; 256] = [
    3, // '00'
    3, // '01'
    3, // '02'
    3, // '03'
    3, // '04'
    3, // '05'
    3, // '06'
    3, // '07'
    3, // '08'
    3, // '09'
    3, // '0A'
    3, // '0B'
    3, // '0C'
    3, // '0D'
    3, // '0E'
    3, // '0F'
    3, // '10'
    3, // '11'
    3, // '12'
    3, // '13'
    3, // '14'
    3, // '15'
    3, // '16'
    3, // '17'
    3, // '18'
    3, // '19'
    3, // '1A'
    3, // '1B'
    3, // '1C'
    3, // '1D'
    3, // '1E'
    3, // '1F'
    1, // '20'
    3, // '21'
    3, // '22'
    3, // '23'
    3, // '24'
    3, // '25'
    1, // '26'
    1, // '27'
    1, // '28'
    1, // '29'
    3, // '2A'
    1, // '2B'
    3, // '2C'
    1, // '2D'
    1, // '2E'
    1, // '2F'
    0, // '30'
    0, // '31'
    0, // '32'
    0, // '33'
    0, // '34'
    0, // '35'
    0, // '36'
    0, // '37'
    0, // '38'
    0, // '39'
    3, // '3A'
    3, // '3B'
    3, // '3C'
    3, // '3D'
    3, // '3E'
    3, // '3F'
    3, // '40'
    1, // '41'
    1, // '42'
    1, // '43'
    1, // '44'
    1, // '45'
    1, // '46'
    1, // '47'
    1, // '48'
    1, // '49'
    1, // '4A'
    1, // '4B'
    1, // '4C'
    1, // '4D'
    1, // '4E'
    1, // '4F'
    1, // '50'
    1, // '51'
    1, // '52'
    1, // '53'
    1, // '54'
    1, // '55'
    1, // '56'
    1, // '57'
    1, // '58'
    1, // '59'
    1, // '5A'
    1, // '5B'
    1, // '5C'
    1, // '5D'
    3, // '5E'
    1, // '5F'
    3, // '60'
    1, // '61'
    1, // '62'
    1, // '63'
    1, // '64'
    1, // '65'
    1, // '66'
    1, // '67'
    1, // '68'
    1, // '69'
    1, // '6A'
    1, // '6B'
    1, // '6C'
    1, // '6D'
    1, // '6E'
    1, // '6F'
    1, // '70'
    1, // '71'
    1, // '72'
    1, // '73'
    1, // '74'
    1, // '75'
    1, // '76'
    1, // '77'
    1, // '78'
    1, // '79'
    1, // '7A'
    1, // '7B'
    1, // '7C'
    1, // '7D'
    1, // '7E'
    3, // '7F'
    3, // '80'
    3, // '81'
    3, // '82'
    3, // '83'
    3, // '84'
    3, // '85'
    3, // '86'
    3, // '87'
    3, // '88'
    3, // '89'
    3, // '8A'
    3, // '8B'
    3, // '8C'
    3, // '8D'
    3, // '8E'
    3, // '8F'
    3, // '90'
    3, // '91'
    3, // '92'
    3, // '93'
    3, // '94'
    3, // '95'
    3, // '96'
    3, // '97'
    3, // '98'
    3, // '99'
    3, // '9A'
    3, // '9B'
    3, // '9C'
    3, // '9D'
    3, // '9E'
    3, // '9F'
    3, // 'A0'
    3, // 'A1'
    3, // 'A2'
    3, // 'A3'
    3, // 'A4'
    3, // 'A5'
    3, // 'A6'
    3, // 'A7'
    3, // 'A8'
    3, // 'A9'
    3, // 'AA'
    3, // 'AB'
    3, // 'AC'
    3, // 'AD'
    3, // 'AE'
    3, // 'AF'
    3, // 'B0'
    3, // 'B1'
    3, // 'B2'
    3, // 'B3'
    3, // 'B4'
    3, // 'B5'
    3, // 'B6'
    3, // 'B7'
    3, // 'B8'
    3, // 'B9'
    3, // 'BA'
    3, // 'BB'
    3, // 'BC'
    3, // 'BD'
    3, // 'BE'
    3, // 'BF'
    3, // 'C0'
    3, // 'C1'
    3, // 'C2'
    3, // 'C3'
    3, // 'C4'
    3, // 'C5'
    3, // 'C6'
    3, // 'C7'
    3, // 'C8'
    3, // 'C9'
    3, // 'CA'
    3, // 'CB'
    3, // 'CC'
    3, // 'CD'
    3, // 'CE'
    3, // 'CF'
    3, // 'D0'
    3, // 'D1'
    3, // 'D2'
    3, // 'D3'
    3, // 'D4'
    3, // 'D5'
    3, // 'D6'
    3, // 'D7'
    3, // 'D8'
    3, // 'D9'
    3, // 'DA'
    3, // 'DB'
    3, // 'DC'
    3, // 'DD'
    3, // 'DE'
    3, // 'DF'
    3, // 'E0'
    3, // 'E1'
    3, // 'E2'
    3, // 'E3'
    3, // 'E4'
    3, // 'E5'
    3, // 'E6'
    3, // 'E7'
    3, // 'E8'
    3, // 'E9'
    3, // 'EA'
    3, // 'EB'
    3, // 'EC'
    3, // 'ED'
    3, // 'EE'
    3, // 'EF'
    3, // 'F0'
    3, // 'F1'
    3, // 'F2'
    3, // 'F3'
    3, // 'F4'
    3, // 'F5'
    3, // 'F6'
    3, // 'F7'
    3, // 'F8'
    3, // 'F9'
    3, // 'FA'
    3, // 'FB'
    3, // 'FC'
    3, // 'FD'
    3, // 'FE'
    3, // 'FF'
];

// The table of the kinds.
pub fn kinds() -> [u8; 256]
    ensures { result ≡ kind_table }
{
    KINDS
}

// All kinds of the bytes of a value, put together: it is as high as the highest of them.
fn worst_of(kinds: &[u8], v: &[u8]) -> u8
    requires { length kinds.now ≡ 256 }
    ensures { result ≡ worst_in kinds.now 0 v.now }
{
    let mut worst = 0u8;
    for b in v {
        worst |= kinds[*b as usize];
    }
    worst
}

// The highest kind that a rule takes.
fn most_of(rule: Rule) -> u8
    ensures { result ≡ by_class rule 0 1 3 }
{
    match rule {
        Rule::Digits => 0,
        Rule::Text => 1,
        Rule::Lead => 0,
        Rule::Code => 1,
        Rule::Birth => 0,
        Rule::Expiry => 0,
        Rule::Raw => 3,
        Rule::NotD => 1,
    }
}

// Whether a table tells of no byte of a value a kind above the rule's.
fn is_within(kinds: &[u8], rule: Rule, v: &[u8]) -> bool
    ensures { result ≡ within kinds.now rule v.now }
{
    if kinds.len() != 256 {
        return false;
    }
    worst_of(kinds, v) <= most_of(rule)
}

// What is said of a value whose bytes are all of the rule's characters.
fn judge_sense(rule: Rule, v: &[u8]) -> Result<(), Fault>
    ensures { verdict_told result ≡ verdict_told (cond (holds rule v.now) (Ok tt) (Err Breaks)) }
{
    if rules_sense::is_plain(rule) {
        return Ok(());
    }
    if rules_sense::holds_for(rule, v) {
        Ok(())
    } else {
        Err(Fault::Breaks)
    }
}

// Whether a rule takes a value, or what is wrong with it, by a table: with that of `kinds` it is what `judge` answers.
pub fn judge_by(kinds: &[u8], rule: Rule, v: &[u8]) -> Result<(), Fault>
    ensures { verdict_told result ≡ verdict_told (judged_by kinds.now rule v.now) }
{
    if is_within(kinds, rule, v) {
        return judge_sense(rule, v);
    }
    rules_judge::judge(rule, v)
}

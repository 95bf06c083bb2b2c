// An edition: what each of the seventeen rows asks of its object, in card order; and the two that are shipped.
// Any rows may stand in one. Whether they are well formed is told by `formed`, and asked by reader and writer before anything else.
// A length set is a number whose bit n permits the length n; the row of the checksum is the seventeenth, and has no other form.
#![tactic(auto)]

ghost use Rattle.std.specs.Prelude.{◌≡◌, true, false};
ghost use Rattle.edition.specs.Rows.{set_formed, by_rule, row_formed, formed_of, formed_told};
ghost use Rattle.edition.specs.Tables.{terminal, issue};

use rules::Rule;

// The bit n of lengths is set where the length n is permitted.
#[derive(Clone, Copy)]
pub struct Row {
    pub required: bool,
    pub rule: Rule,
    pub lengths: u32,
}

impl Row {
    // What stands where a table has no row: it permits no length and requires nothing.
    pub const BLANK: Row = Row {
        required: false,
        rule: Rule::Digits,
        lengths: 0,
    };
}

// The number is 1 to 255; every record carries that of the edition that it was read under.
#[derive(Clone, Copy)]
pub struct Edition {
    pub rows: [Row; 17],
    pub number: u8,
}

// Whether an edition is well formed, or its first row that is not; that its number is 0 is told if all rows are right.
#[derive(Clone, Copy)]
pub enum Formed {
    Well,
    Bad(usize),
    Unnumbered,
}

const FROM_1_TO_3: u32 = (1 << 4) - (1 << 1);

const FROM_1_TO_15: u32 = (1 << 16) - (1 << 1);

const FROM_1_TO_28: u32 = (1 << 29) - (1 << 1);

const FROM_2_TO_15: u32 = (1 << 16) - (1 << 2);

const FROM_2_TO_22: u32 = (1 << 23) - (1 << 2);

const FROM_2_TO_23: u32 = (1 << 24) - (1 << 2);

const FROM_2_TO_28: u32 = (1 << 29) - (1 << 2);

const FROM_4_TO_7: u32 = (1 << 8) - (1 << 4);

const FROM_6_TO_12: u32 = (1 << 13) - (1 << 6);

// The rows that both shipped editions share.
const FUND_NAME: Row = Row {
    required: true,
    rule: Rule::Text,
    lengths: FROM_2_TO_28,
};

const FUND_NUMBER: Row = Row {
    required: true,
    rule: Rule::Digits,
    lengths: 1 << 7,
};

const INSURED_NUMBER: Row = Row {
    required: true,
    rule: Rule::Digits,
    lengths: FROM_6_TO_12,
};

const TITLE: Row = Row {
    required: false,
    rule: Rule::Text,
    lengths: FROM_2_TO_15,
};

const NAME_PREFIX: Row = Row {
    required: false,
    rule: Rule::Text,
    lengths: FROM_1_TO_15,
};

const FAMILY_NAME: Row = Row {
    required: true,
    rule: Rule::Text,
    lengths: FROM_2_TO_28,
};

const BIRTH_DATE: Row = Row {
    required: true,
    rule: Rule::Birth,
    lengths: 1 << 8,
};

const STREET: Row = Row {
    required: false,
    rule: Rule::Text,
    lengths: FROM_2_TO_28,
};

const POSTAL_CODE: Row = Row {
    required: true,
    rule: Rule::Text,
    lengths: FROM_4_TO_7,
};

const CHECKSUM: Row = Row {
    required: true,
    rule: Rule::Raw,
    lengths: 1 << 1,
};

impl Edition {
    pub const TERMINAL: Edition = Edition {
        rows: [
            FUND_NAME,
            FUND_NUMBER,
            Row {
                required: false,
                rule: Rule::Digits,
                lengths: 1 << 5,
            },
            INSURED_NUMBER,
            Row {
                required: true,
                rule: Rule::Digits,
                lengths: 1 << 1 | 1 << 4,
            },
            Row {
                required: false,
                rule: Rule::Text,
                lengths: FROM_1_TO_3,
            },
            TITLE,
            Row {
                required: false,
                rule: Rule::Text,
                lengths: FROM_1_TO_28,
            },
            NAME_PREFIX,
            FAMILY_NAME,
            BIRTH_DATE,
            STREET,
            Row {
                required: false,
                rule: Rule::Text,
                lengths: FROM_1_TO_3,
            },
            POSTAL_CODE,
            Row {
                required: true,
                rule: Rule::Text,
                lengths: FROM_2_TO_23,
            },
            Row {
                required: false,
                rule: Rule::Expiry,
                lengths: 1 << 4,
            },
            CHECKSUM,
        ],
        number: 1,
    };

    pub const ISSUE: Edition = Edition {
        rows: [
            FUND_NAME,
            FUND_NUMBER,
            Row {
                required: true,
                rule: Rule::Digits,
                lengths: 1 << 5,
            },
            INSURED_NUMBER,
            Row {
                required: true,
                rule: Rule::Lead,
                lengths: 1 << 4,
            },
            Row {
                required: true,
                rule: Rule::Code,
                lengths: 1 << 1,
            },
            TITLE,
            Row {
                required: true,
                rule: Rule::Text,
                lengths: FROM_1_TO_28,
            },
            NAME_PREFIX,
            FAMILY_NAME,
            BIRTH_DATE,
            STREET,
            Row {
                required: false,
                rule: Rule::NotD,
                lengths: FROM_1_TO_3,
            },
            POSTAL_CODE,
            Row {
                required: true,
                rule: Rule::Text,
                lengths: FROM_2_TO_22,
            },
            Row {
                required: true,
                rule: Rule::Expiry,
                lengths: 1 << 4,
            },
            CHECKSUM,
        ],
        number: 2,
    };

    pub fn terminal() -> Edition
        ensures { result ≡ terminal }
    {
        Edition::TERMINAL
    }

    pub fn issue() -> Edition
        ensures { result ≡ issue }
    {
        Edition::ISSUE
    }

    // Whether the edition is well formed, or its first bad row in card order, or else that it has no number.
    pub fn formed(self) -> Formed
        ensures { formed_told result ≡ formed_told (formed_of self) }
    {
        for (i, row) in self.rows[..16].iter().enumerate() {
            if !object_formed(*row) {
                return Formed::Bad(i);
            }
        }
        let last = self.rows[16];
        if !last_formed(last) {
            return Formed::Bad(16);
        }
        if self.number == 0 {
            return Formed::Unnumbered;
        }
        Formed::Well
    }
}

// Of four tests, the one that a rule asks for.
pub fn by_rule(rule: Rule, plain: bool, birth: bool, expiry: bool, raw: bool) -> bool
    ensures { result ≡ by_rule rule plain birth expiry raw }
{
    match rule {
        Rule::Digits => plain,
        Rule::Text => plain,
        Rule::Lead => plain,
        Rule::Code => plain,
        Rule::Birth => birth,
        Rule::Expiry => expiry,
        Rule::Raw => raw,
        Rule::NotD => plain,
    }
}

// Whether a set is not empty and within 1 to 28.
fn set_formed(lengths: u32) -> bool
    ensures { result ≡ set_formed lengths }
{
    (0 < lengths) & (lengths % 2 == 0) & (lengths < 1 << 29)
}

// Whether a rule asks for no set of its own.
fn is_plain(rule: Rule) -> bool
    ensures { result ≡ by_rule rule true false false false }
{
    by_rule(rule, true, false, false, false)
}

// Whether the row of an object is well formed.
fn object_formed(row: Row) -> bool
    ensures { result ≡ row_formed false row }
{
    let lengths = row.lengths;
    let rule = row.rule;
    if is_plain(rule) {
        return set_formed(lengths);
    }
    by_rule(rule, false, lengths == 1 << 8, lengths == 1 << 4, false)
}

// Whether the row of the checksum is well formed.
fn last_formed(row: Row) -> bool
    ensures { result ≡ row_formed true row }
{
    let rule = row.rule;
    by_rule(
        rule,
        false,
        false,
        false,
        row.required & (row.lengths == 1 << 1),
    )
}

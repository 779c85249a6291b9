// The report's bytes, line by line, into a block that has room for every report, and then into lent space. Each function puts its bytes from a place
// on and answers the place after them; what stands beyond that place is not told. Contracts cite specs/Report.antt, specs/Block.antt.

#![tactic(auto)]

ghost use Rattle.std.specs.Prelude.{◌≡◌, [], ◌∷◌, ◌++◌, ◌+◌, ◌*◌, ◌<◌, ◌≤◌, ◌^◌, length, take};
ghost use Rattle.theory.specs.Rule.{by_number};
ghost use Rattle.space.specs.Space.{answer, after};
ghost use Rattle.space.specs.Text.{decimal};
ghost use Rattle.report.specs.Elements.{elements};
ghost use Rattle.engine.specs.Steps.{steps_in};
ghost use Rattle.report.specs.Report.{verdict_line, elements_line, step_line, step_lines, slot_line, cluster_lines, report, over_report};
ghost use Rattle.report.specs.Pieces.{numbers, above, wide, parts_words, kind_words, ways_words, rest_words, longest, Small, AllSmall};
ghost use Rattle.report.specs.Pieces.{steps_between, front};
ghost use Rattle.report.specs.Block.{block, Numerals, Stands};

use space::{put_all, put_decimal};
use theory::{CLUSTERS, CONSTRAINTS, JOINTS, JointKind, PARTS, Rule, Step, Verdict, Ways};

// Room for the longest report, and for the largest piece behind it.
pub const BLOCK: usize = 5472;

// The numbers below 256, four bytes each: a space and the digits.
pub const TEXT: usize = 1024;

const NUMBERS: [u8; TEXT] = *b" \
    0   1   2   3   4   5   6   7   8   9   10  11  12  13  14  15  16  17  18  19  20  21  22  23  24  \
    25  26  27  28  29  30  31  32  33  34  35  36  37  38  39  40  41  42  43  44  45  46  47  48  49  \
    50  51  52  53  54  55  56  57  58  59  60  61  62  63  64  65  66  67  68  69  70  71  72  73  74  \
    75  76  77  78  79  80  81  82  83  84  85  86  87  88  89  90  91  92  93  94  95  96  97  98  99  \
    100 101 102 103 104 105 106 107 108 109 110 111 112 113 114 115 116 117 118 119 120 121 122 123 124 \
    125 126 127 128 129 130 131 132 133 134 135 136 137 138 139 140 141 142 143 144 145 146 147 148 149 \
    150 151 152 153 154 155 156 157 158 159 160 161 162 163 164 165 166 167 168 169 170 171 172 173 174 \
    175 176 177 178 179 180 181 182 183 184 185 186 187 188 189 190 191 192 193 194 195 196 197 198 199 \
    200 201 202 203 204 205 206 207 208 209 210 211 212 213 214 215 216 217 218 219 220 221 222 223 224 \
    225 226 227 228 229 230 231 232 233 234 235 236 237 238 239 240 241 242 243 244 245 246 247 248 249 \
    250 251 252 253 254 255";

// The table of the numbers. A constant that is indexed is built anew at each mention, so a report has it built once and lends it.
pub fn numerals() -> [u8; TEXT]
    ensures { Numerals result }
{
    NUMBERS
}

// How many digits a number below 1,000 has.
fn digits(n: usize) -> usize
    ensures { result ≡ length (decimal n) }
{
    if n < 10 {
        return 1;
    }
    if n < 100 {
        return 2;
    }
    3
}

// A space and a number: the four bytes of the table, of which those after the digits count for nothing. All are read before one is stored, so that
// they move as one.
fn put_number(out: &mut [u8; BLOCK], at: usize, text: &[u8; TEXT], n: usize) -> usize
    requires { Numerals text.now × (n < 256) × (at + 4 ≤ block) }
    ensures { Stands out.old at (32 ∷ decimal n) result out.new × (result ≤ at + 4) }
{
    let from = 4 * n;
    let a = text[from];
    let b = text[from + 1];
    let c = text[from + 2];
    let d = text[from + 3];
    out[at] = a;
    out[at + 1] = b;
    out[at + 2] = c;
    out[at + 3] = d;
    at + 1 + digits(n)
}

// A word.
fn put_word(out: &mut [u8; BLOCK], at: usize, word: &[u8]) -> usize
    requires { at + length word.now ≤ block }
    ensures { Stands out.old at word.now result out.new }
{
    for (i, b) in word.iter().enumerate() {
        out[at + i] = *b;
    }
    at + word.len()
}

// A space and a count below 1,000.
fn put_count(out: &mut [u8; BLOCK], at: usize, n: usize) -> usize
    requires { (n < 1000) × (at + 4 ≤ block) }
    ensures { Stands out.old at (32 ∷ decimal n) result out.new × (result ≤ at + 4) }
{
    let a1 = put_word(out, at, b" ");
    put_decimal(out, a1, n)
}

// A set's numbers from `first` on, a space before each.
fn put_set_from(
    out: &mut [u8; BLOCK],
    at: usize,
    text: &[u8; TEXT],
    first: usize,
    set: u64,
) -> usize
    requires { Numerals text.now × (first < 192) × (at + 260 ≤ block) }
    ensures { Stands out.old at (numbers (above first (elements set))) result out.new × (result ≤ at + 256) }
{
    let mut next = at;
    for x in sets::elements(set) {
        next = put_number(out, next, text, first + x);
    }
    next
}

// A set's elements, a space before each.
fn put_set(out: &mut [u8; BLOCK], at: usize, text: &[u8; TEXT], set: u64) -> usize
    requires { Numerals text.now × (at + 260 ≤ block) }
    ensures { Stands out.old at (numbers (elements set)) result out.new × (result ≤ at + 192) }
{
    put_set_from(out, at, text, 0, set)
}

// A word and a number.
fn put_entry(out: &mut [u8; BLOCK], at: usize, text: &[u8; TEXT], word: &[u8], n: usize) -> usize
    requires { Numerals text.now × (n < 256) × (at + length word.now + 4 ≤ block) }
    ensures { Stands out.old at (word.now ++ 32 ∷ decimal n) result out.new
        × (result ≤ at + length word.now + 4) }
{
    let a1 = put_word(out, at, word);
    put_number(out, a1, text, n)
}

// A word and a set's elements, at the end of a line.
fn put_elements(out: &mut [u8; BLOCK], at: usize, text: &[u8; TEXT], word: &[u8], set: u64) -> usize
    requires { Numerals text.now × (at + length word.now + 260 ≤ block) }
    ensures { Stands out.old at (word.now ++ (numbers (elements set) ++ 10 ∷ [])) result out.new
        × (result ≤ at + length word.now + 193) }
{
    let a1 = put_word(out, at, word);
    let a2 = put_set(out, a1, text, set);
    put_word(out, a2, b"\n")
}

// The verdict's line.
fn put_verdict_line(out: &mut [u8; BLOCK], at: usize, verdict: Verdict) -> usize
    requires { at + 14 ≤ block }
    ensures { Stands out.old at (verdict_line verdict) result out.new × (result ≤ at + 14) }
{
    match verdict {
        Verdict::Over => put_word(out, at, b"verdict over\n"),
        Verdict::Angle => put_word(out, at, b"verdict angle\n"),
        Verdict::Well => put_word(out, at, b"verdict well\n"),
        Verdict::Stuck => put_word(out, at, b"verdict stuck\n"),
        Verdict::Under => put_word(out, at, b"verdict under\n"),
    }
}

// The line of the element count n and the constraint count e.
fn put_elements_line(out: &mut [u8; BLOCK], at: usize, n: usize, e: usize) -> usize
    requires { (n < 1000) × (e < 1000) × (at + 29 ≤ block) }
    ensures { Stands out.old at (elements_line n e) result out.new × (result ≤ at + 29) }
{
    let a1 = put_word(out, at, b"elements");
    let a2 = put_count(out, a1, n);
    let a3 = put_word(out, a2, b" constraints");
    let a4 = put_count(out, a3, e);
    put_word(out, a4, b"\n")
}

// A step line up to its parts.
fn put_parts(
    out: &mut [u8; BLOCK],
    at: usize,
    text: &[u8; TEXT],
    made: usize,
    i: usize,
    j: usize,
    k: usize,
) -> usize
    requires { Numerals text.now × (made < 256) × (i < 256) × (j < 256) × (k < 256) × (at + 25 ≤ block) }
    ensures { Stands out.old at (parts_words made i j k) result out.new × (result ≤ at + 25) }
{
    let a1 = put_entry(out, at, text, b"step", made);
    let a2 = put_entry(out, a1, text, b" from", i);
    let a3 = put_number(out, a2, text, j);
    put_number(out, a3, text, k)
}

// A step line from the kind to the word before the placements.
fn put_kind(out: &mut [u8; BLOCK], at: usize, kind: JointKind) -> usize
    requires { at + 14 ≤ block }
    ensures { Stands out.old at (kind_words kind) result out.new × (result ≤ at + 14) }
{
    match kind {
        JointKind::Ppp => put_word(out, at, b" kind ppp ways"),
        JointKind::Ppl => put_word(out, at, b" kind ppl ways"),
        JointKind::Pll => put_word(out, at, b" kind pll ways"),
        JointKind::Lll => put_word(out, at, b" kind lll ways"),
    }
}

// The placements, at the end of a step line.
fn put_ways(out: &mut [u8; BLOCK], at: usize, text: &[u8; TEXT], ways: Ways) -> usize
    requires { Numerals text.now × (at + 5 ≤ block) }
    ensures { Stands out.old at (ways_words ways) result out.new }
{
    match ways {
        Ways::Known(w) => {
            let a1 = put_number(out, at, text, usize::from(w));
            put_word(out, a1, b"\n")
        }
        Ways::Unknown => put_word(out, at, b" ?\n"),
    }
}

// A step's line.
fn put_step_line(out: &mut [u8; BLOCK], at: usize, text: &[u8; TEXT], s: Step) -> usize
    requires { Numerals text.now × Small s × (at + 310 ≤ block) }
    ensures { Stands out.old at (step_line s) result out.new }
{
    let a1 = put_parts(out, at, text, s.made, s.i, s.j, s.k);
    let a2 = put_word(out, a1, b" joint");
    let a3 = put_set(out, a2, text, s.joint);
    let a4 = put_kind(out, a3, s.kind);
    put_ways(out, a4, text, s.ways)
}

// What a cluster rests on, at the end of its line: the numbers to 63 in one word, those from 64 on in another.
fn put_rests(out: &mut [u8; BLOCK], at: usize, text: &[u8; TEXT], low: u64, high: u64) -> usize
    requires { Numerals text.now × (at + 500 ≤ block) }
    ensures { Stands out.old at (rest_words low high) result out.new }
{
    let a1 = put_word(out, at, b" rests on");
    let a2 = put_set(out, a1, text, low);
    let a3 = put_set_from(out, a2, text, 64, high);
    put_word(out, a3, b"\n")
}

// The line of cluster c, which holds the elements of a and rests on the constraints of two words; none for the empty set, since that cluster
// is dead.
fn put_slot_line(
    out: &mut [u8; BLOCK],
    at: usize,
    text: &[u8; TEXT],
    c: usize,
    a: u64,
    low: u64,
    high: u64,
) -> usize
    requires { Numerals text.now × (c < 256) × (at + 800 ≤ block) }
    ensures { Stands out.old at (slot_line c a (high * 2 ^ 64 + low)) result out.new }
{
    if a == 0 {
        return at;
    }
    let a1 = put_entry(out, at, text, b"cluster", c);
    let a2 = put_word(out, a1, b" holds");
    let a3 = put_set(out, a2, text, a);
    put_rests(out, a3, text, low, high)
}

// The lines of the steps from `first` to before `last` of a list of merges, from its parts and joints.
pub fn put_steps_from(
    out: &mut [u8; BLOCK],
    at: usize,
    text: &[u8; TEXT],
    parts: &[u16; PARTS],
    joints: &[u64; JOINTS],
    start: &[u64; CONSTRAINTS],
    sizes: &[i32; CONSTRAINTS],
    lines: u64,
    e: usize,
    first: usize,
    last: usize,
) -> usize
    requires { Numerals text.now × (e ≤ 125) × (last ≤ 62)
        × AllSmall (steps_between lines e sizes.now start.now parts.now joints.now first last)
        × (at + length (step_lines (steps_between lines e sizes.now start.now parts.now joints.now first last)) + 310 ≤ block) }
    ensures { Stands out.old at
        (step_lines (steps_between lines e sizes.now start.now parts.now joints.now first last)) result
        out.new }
{
    let mut next = at;
    for t in first..last {
        let s = engine::step_at(parts, joints, start, sizes, lines, e, t);
        next = put_step_line(out, next, text, s);
    }
    next
}

// The lines of the first `count` steps of a list of merges, from its parts and joints.
fn put_steps(
    out: &mut [u8; BLOCK],
    at: usize,
    text: &[u8; TEXT],
    parts: &[u16; PARTS],
    joints: &[u64; JOINTS],
    start: &[u64; CONSTRAINTS],
    sizes: &[i32; CONSTRAINTS],
    lines: u64,
    e: usize,
    count: usize,
) -> usize
    requires { Numerals text.now × (e ≤ 125) × (count ≤ 62) × AllSmall (steps_in lines e sizes.now start.now parts.now joints.now count)
        × (at + length (step_lines (steps_in lines e sizes.now start.now parts.now joints.now count)) ≤ longest) }
    ensures { Stands out.old at
        (step_lines (steps_in lines e sizes.now start.now parts.now joints.now count)) result
        out.new }
{
    put_steps_from(
        out, at, text, parts, joints, start, sizes, lines, e, 0, count,
    )
}

// The lines of the living clusters among the first `used` slots, with what they rest on in two words each.
fn put_clusters(
    out: &mut [u8; BLOCK],
    at: usize,
    text: &[u8; TEXT],
    slots: &[u64; CLUSTERS],
    low: &[u64; CLUSTERS],
    high: &[u64; CLUSTERS],
    used: usize,
) -> usize
    requires { Numerals text.now × (used ≤ 192) × (length slots.now ≡ 192) × (length low.now ≡ 192) × (length high.now ≡ 192)
        × (at + length (cluster_lines 0 (take used slots.now) (take used (wide low.now high.now))) ≤ longest) }
    ensures { Stands out.old at
        (cluster_lines 0 (take used slots.now) (take used (wide low.now high.now))) result out.new }
{
    let mut next = at;
    for c in 0..used {
        next = put_slot_line(out, next, text, c, slots[c], low[c], high[c]);
    }
    next
}

// The front of a report of a sheet that is not over: its verdict, the counts, and the first `count` steps of a list of merges.
fn put_front(
    out: &mut [u8; BLOCK],
    text: &[u8; TEXT],
    n: usize,
    e: usize,
    lines: u64,
    verdict: Verdict,
    start: &[u64; CONSTRAINTS],
    sizes: &[i32; CONSTRAINTS],
    count: usize,
    parts: &[u16; PARTS],
    joints: &[u64; JOINTS],
) -> usize
    requires { Numerals text.now × (n < 1000) × (e ≤ 125) × (count ≤ 62)
        × AllSmall (steps_in lines e sizes.now start.now parts.now joints.now count)
        × (length (front n e verdict (steps_in lines e sizes.now start.now parts.now joints.now count)) ≤ longest) }
    ensures { Stands out.old 0
        (front n e verdict (steps_in lines e sizes.now start.now parts.now joints.now count)) result
        out.new }
{
    let a1 = put_verdict_line(out, 0, verdict);
    let a2 = put_elements_line(out, a1, n, e);
    put_steps(out, a2, text, parts, joints, start, sizes, lines, e, count)
}

// The report of a sheet that is not over: its front, the clusters that the list of merges leaves, and what they rest on.
fn put_report(
    out: &mut [u8; BLOCK],
    text: &[u8; TEXT],
    n: usize,
    e: usize,
    lines: u64,
    verdict: Verdict,
    start: &[u64; CONSTRAINTS],
    sizes: &[i32; CONSTRAINTS],
    count: usize,
    parts: &[u16; PARTS],
    joints: &[u64; JOINTS],
    slots: &[u64; CLUSTERS],
    low: &[u64; CLUSTERS],
    high: &[u64; CLUSTERS],
) -> usize
    requires numerals { Numerals text.now }
    requires n_bound { (n < 1000) × (e ≤ 125) × (count ≤ 62) × (length slots.now ≡ 192) × (length low.now ≡ 192) × (length high.now ≡ 192)
        × AllSmall (steps_in lines e sizes.now start.now parts.now joints.now count) }
    requires high_len_bound { length (report n e verdict (steps_in lines e sizes.now start.now parts.now joints.now count) (take (e + count) slots.now)
        (take (e + count) (wide low.now high.now))) ≤ longest }
    ensures { Stands out.old 0
        (report n e verdict (steps_in lines e sizes.now start.now parts.now joints.now count)
        (take (e + count) slots.now) (take (e + count) (wide low.now high.now))) result out.new }
{
    let a1 = put_front(
        out, text, n, e, lines, verdict, start, sizes, count, parts, joints,
    );
    put_clusters(out, a1, text, slots, low, high, e + count)
}

// The report of an over sheet: the first constraint that makes those up to it over, and the smallest set.
fn put_over_report(
    out: &mut [u8; BLOCK],
    text: &[u8; TEXT],
    n: usize,
    e: usize,
    first: usize,
    set: u64,
) -> usize
    requires { Numerals text.now × (n < 1000) × (e < 1000) × (first < 1000) }
    ensures { Stands out.old 0 (over_report n e first set) result out.new × (result ≤ 249) }
{
    let a1 = put_verdict_line(out, 0, Verdict::Over);
    let a2 = put_elements_line(out, a1, n, e);
    let a3 = put_word(out, a2, b"first");
    let a4 = put_count(out, a3, first);
    put_elements(out, a4, text, b"\nset", set)
}

// The report of a sheet that is not over, into space that takes it whole or not at all.
pub fn write_report(
    out: &mut [u8],
    n: usize,
    e: usize,
    lines: u64,
    verdict: Verdict,
    start: &[u64; CONSTRAINTS],
    sizes: &[i32; CONSTRAINTS],
    count: usize,
    parts: &[u16; PARTS],
    joints: &[u64; JOINTS],
    slots: &[u64; CLUSTERS],
    low: &[u64; CLUSTERS],
    high: &[u64; CLUSTERS],
) -> Result<usize, Rule>
    requires n_bound { (n < 1000) × (e ≤ 125) × (count ≤ 62) × (length slots.now ≡ 192) × (length low.now ≡ 192) × (length high.now ≡ 192)
        × AllSmall (steps_in lines e sizes.now start.now parts.now joints.now count) }
    requires high_len_bound { length (report n e verdict (steps_in lines e sizes.now start.now parts.now joints.now count) (take (e + count) slots.now)
        (take (e + count) (wide low.now high.now))) ≤ longest }
    ensures answers { by_number result ≡ answer
        (report n e verdict (steps_in lines e sizes.now start.now parts.now joints.now count)
        (take (e + count) slots.now) (take (e + count) (wide low.now high.now))) out.old }
    ensures leaves { out.new ≡ after
        (report n e verdict (steps_in lines e sizes.now start.now parts.now joints.now count)
        (take (e + count) slots.now) (take (e + count) (wide low.now high.now))) out.old }
{
    let text = numerals();
    let mut whole: [u8; BLOCK] = [0; BLOCK];
    let length = put_report(
        &mut whole, &text, n, e, lines, verdict, start, sizes, count, parts, joints, slots, low,
        high,
    );
    put_all(out, &whole[..length])
}

// The report of an over sheet, into space that takes it whole or not at all.
pub fn write_over_report(
    out: &mut [u8],
    n: usize,
    e: usize,
    first: usize,
    set: u64,
) -> Result<usize, Rule>
    requires { (n < 1000) × (e < 1000) × (first < 1000) }
    ensures answers { by_number result ≡ answer (over_report n e first set) out.old }
    ensures leaves { out.new ≡ after (over_report n e first set) out.old }
{
    let text = numerals();
    let mut lines: [u8; BLOCK] = [0; BLOCK];
    let end = put_over_report(&mut lines, &text, n, e, first, set);
    put_all(out, &lines[..end])
}

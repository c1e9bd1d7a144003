// The check of a packet's data: x^16+x^12+x^5+1, start all ones, most significant bit first, no final inversion.
//
// Promises: the register after any octets, from any register, is the one that the polynomial's step gives bit by bit. Running over two
// parts is running over them joined, and data followed by its own check leaves register 0 (proofs/Laws.antt). Inside, many octets go in fours,
// by four tables of 256 registers: every entry is what the rule gives (`table`, by one computed test), and with them four octets at once are
// the same as one after the other (proofs/Parts.antt).
#![tactic(auto)]

mod tables;

ghost use Rattle.std.specs.Prelude.{◌≡◌, ◌∷◌, ℕ, ◌%◌, ◌<◌, length, replicate};
ghost use Rattle.octets.specs.Table.{table_of};
ghost use Rattle.crc.specs.Crc.{bit, octet as octet_of, crc_from, crc_of};

// From so many octets on the tables are worth the copy that is made of them (docs/DECISIONS.md).
const MANY: usize = 64;

// One bit.
fn step(c: u16) -> u16
    ensures { result ≡ bit c }
{
    if c < 0x8000 {
        c << 1
    } else {
        (c << 1) ^ 0x1021
    }
}

// One octet.
fn octet(c: u16, x: u8) -> u16
    ensures { result ≡ octet_of c x }
{
    let mut r = c ^ ((x as u16) << 8);
    for _ in 0..8usize {
        r = step(r);
    }
    r
}

// The register after few octets, each bit by bit.
fn by_bits(register: u16, octets: &[u8]) -> u16
    ensures { result ≡ crc_from register octets.now }
{
    let mut c = register;
    for x in octets {
        c = octet(c, *x);
    }
    c
}

// A table: what each octet makes of register 0, with so many octets of zeros behind it. Here the constants are compared with the rule, once.
fn table(zeros: usize) -> [u16; 256]
    requires { zeros < 4 }
    ensures { result ≡ table_of 256 (λ (x : ℕ). crc_from 0 (x ∷ replicate zeros 0)) }
{
    match zeros {
        0 => tables::ZEROS_0,
        1 => tables::ZEROS_1,
        2 => tables::ZEROS_2,
        _ => tables::ZEROS_3,
    }
}

// The register after octets in fours. Each octet's part in it stands in the table with as many zeros as octets follow, and the register's own two
// octets go with the first two. The tables are copied once: a constant that is indexed in a loop would be built anew at each turn.
fn by_tables(register: u16, octets: &[u8]) -> u16
    requires { length octets.now % 4 ≡ 0 }
    ensures { result ≡ crc_from register octets.now }
{
    let three = table(3);
    let two = table(2);
    let one = table(1);
    let none = table(0);
    let mut c = register;
    for k in 0..octets.len() / 4 {
        let i = 4 * k;
        let x = ((c >> 8) as u8) ^ octets[i];
        let y = ((c % 0x100) as u8) ^ octets[i + 1];
        let z = octets[i + 2];
        let w = octets[i + 3];
        c = three[x as usize] ^ two[y as usize] ^ one[z as usize] ^ none[w as usize];
    }
    c
}

// The register after the octets, from a given register on.
pub fn run(register: u16, octets: &[u8]) -> u16
    ensures { result ≡ crc_from register octets.now }
{
    if octets.len() < MANY {
        return by_bits(register, octets);
    }
    let over = octets.len() % 4;
    // Called in two places, it stays a call: taken into a caller's loop, the copies of the tables cost whatever that loop goes over.
    if over == 0 {
        return by_tables(register, octets);
    }
    let c = by_bits(register, &octets[0..over]);
    by_tables(c, &octets[over..])
}

// The check of the octets: the register that starts all ones.
pub fn crc(octets: &[u8]) -> u16
    ensures { result ≡ crc_of octets.now }
{
    run(0xffff, octets)
}

// AES-128 of FIPS 197, one block each way. The state is four words, one for each of its columns, row 0 highest.
ghost use Rattle.std.specs.Prelude.{◌≡◌, ℕ, ◌+◌, ◌<◌, List, [], ◌∷◌, map};
ghost use Rattle.cipher.specs.Bytes.{◌⊕◌, word_bytes};
ghost use Rattle.cipher.specs.Fips197.{xtime, s_box, sub_bytes, shift_rows, mix_columns, add_round_key, rot_word, key_expansion, cipher};
ghost use Rattle.cipher.specs.Fips197.{inv_s_box, inv_sub_bytes, inv_shift_rows, inv_mix_columns, inv_cipher, aes_encrypt, aes_decrypt};
ghost use Rattle.cipher.specs.inner.AesTables.{multiples, mixed_column, rot_right, bytes_of, columns, RoundKeyOf};

use std::marker::Model;

// A state, or four words of the key schedule.
#[derive(Clone, Copy)]
struct Columns {
    a: u32,
    b: u32,
    c: u32,
    d: u32,
}

// The steps of a round are methods by FIPS 197's names. Three differ in what they map alone: a parameter for that would be longer than their two
// lines.
impl Columns {
    fn load(block: [u8; 16]) -> Columns
        ensures { bytes_of result ≡ block }
    {
        Columns {
            a: word(block[0], block[1], block[2], block[3]),
            b: word(block[4], block[5], block[6], block[7]),
            c: word(block[8], block[9], block[10], block[11]),
            d: word(block[12], block[13], block[14], block[15]),
        }
    }

    fn store(self) -> [u8; 16]
        ensures { result ≡ bytes_of self }
    {
        // all four in one array, which is faster here than one by one
        let [a, b, c, d] = [
            self.a.to_be_bytes(),
            self.b.to_be_bytes(),
            self.c.to_be_bytes(),
            self.d.to_be_bytes(),
        ];
        [
            a[0], a[1], a[2], a[3], b[0], b[1], b[2], b[3], c[0], c[1], c[2], c[3], d[0], d[1],
            d[2], d[3],
        ]
    }

    fn add_round_key(self, key: Columns) -> Columns
        ensures { bytes_of result ≡ add_round_key (bytes_of self) (bytes_of key) }
    {
        Columns {
            a: self.a ^ key.a,
            b: self.b ^ key.b,
            c: self.c ^ key.c,
            d: self.d ^ key.d,
        }
    }

    // The columns after ShiftRows.
    fn shift_rows(self) -> [[u8; 4]; 4]
        ensures { result ≡ columns (shift_rows (bytes_of self)) }
    {
        // each by itself, which is faster than all four in one array
        let a = self.a.to_be_bytes();
        let b = self.b.to_be_bytes();
        let c = self.c.to_be_bytes();
        let d = self.d.to_be_bytes();
        [
            [a[0], b[1], c[2], d[3]],
            [b[0], c[1], d[2], a[3]],
            [c[0], d[1], a[2], b[3]],
            [d[0], a[1], b[2], c[3]],
        ]
    }

    fn inv_shift_rows(self) -> [[u8; 4]; 4]
        ensures { result ≡ columns (inv_shift_rows (bytes_of self)) }
    {
        let a = self.a.to_be_bytes();
        let b = self.b.to_be_bytes();
        let c = self.c.to_be_bytes();
        let d = self.d.to_be_bytes();
        [
            [a[0], d[1], c[2], b[3]],
            [b[0], a[1], d[2], c[3]],
            [c[0], b[1], a[2], d[3]],
            [d[0], c[1], b[2], a[3]],
        ]
    }

    // SubBytes and ShiftRows.
    fn sub_shift(self) -> Columns
        ensures { bytes_of result ≡ shift_rows (sub_bytes (bytes_of self)) }
    {
        let [a, b, c, d] = self.shift_rows().map(sub_column);
        Columns { a, b, c, d }
    }

    // SubBytes, ShiftRows and MixColumns.
    fn sub_shift_mix(self) -> Columns
        ensures { bytes_of result ≡ mix_columns (shift_rows (sub_bytes (bytes_of self))) }
    {
        let [a, b, c, d] = self.shift_rows().map(sub_mix_column);
        Columns { a, b, c, d }
    }

    // InvShiftRows and InvSubBytes.
    fn inv_shift_sub(self) -> Columns
        ensures { bytes_of result ≡ inv_sub_bytes (inv_shift_rows (bytes_of self)) }
    {
        let [a, b, c, d] = self.inv_shift_rows().map(inv_sub_column);
        Columns { a, b, c, d }
    }

    fn inv_mix_columns(self) -> Columns
        ensures { bytes_of result ≡ inv_mix_columns (bytes_of self) }
    {
        Columns {
            a: inv_mix_column(self.a),
            b: inv_mix_column(self.b),
            c: inv_mix_column(self.c),
            d: inv_mix_column(self.d),
        }
    }
}

// The word of four bytes.
fn word(p: u8, q: u8, r: u8, s: u8) -> u32
    ensures { word_bytes result ≡ p ∷ q ∷ r ∷ s ∷ [] }
{
    u32::from_be_bytes([p, q, r, s])
}

// A column with each of its bytes replaced by the S-box.
fn sub_column(column: [u8; 4]) -> u32
    ensures { word_bytes result ≡ map s_box column }
{
    let [p, q, r, s] = column;
    word(s_box(p), s_box(q), s_box(r), s_box(s))
}

fn inv_sub_column(column: [u8; 4]) -> u32
    ensures { word_bytes result ≡ map inv_s_box column }
{
    let [p, q, r, s] = column;
    word(inv_s_box(p), inv_s_box(q), inv_s_box(r), inv_s_box(s))
}

// SubBytes and MixColumns of a column.
fn sub_mix_column(column: [u8; 4]) -> u32
    ensures { word_bytes result ≡ mixed_column 0x02 0x03 0x01 0x01 (map s_box column) }
{
    let [p, q, r, s] = column;
    sum_by_rows(te(p), te(q), te(r), te(s))
}

fn inv_mix_column(column: u32) -> u32
    ensures { word_bytes result ≡ mixed_column 0x0e 0x0b 0x0d 0x09 (word_bytes column) }
{
    let [p, q, r, s] = column.to_be_bytes();
    sum_by_rows(u(p), u(q), u(r), u(s))
}

// The sum of what the bytes of a column give in a product with a circulant matrix: each byte's word is turned to the byte's row.
fn sum_by_rows(p: u32, q: u32, r: u32, s: u32) -> u32
    ensures { word_bytes result ≡ word_bytes p ⊕ rot_right (word_bytes q ⊕ rot_right (word_bytes r ⊕ rot_right (word_bytes s))) }
{
    p ^ (q ^ (r ^ s.rotate_right(8)).rotate_right(8)).rotate_right(8)
}

// A round key, and the power of x in the round constant of the next.
#[derive(Clone, Copy)]
struct RoundKey {
    words: Columns,
    power: u8,
}

impl RoundKey {
    // The first is the key itself.
    fn first(key: [u8; 16]) -> RoundKey
        ensures { RoundKeyOf key 0 result }
    {
        RoundKey {
            words: Columns::load(key),
            power: 1,
        }
    }

    fn next(self) -> RoundKey
        ensures { (key : List ℕ) (n : ℕ) → n < 10 → RoundKeyOf key n self → RoundKeyOf key (n + 1) result }
    {
        let k = self.words;
        let a = k.a ^ sub_column(k.d.rotate_left(8).to_be_bytes()) ^ u32::from(self.power) << 24;
        let b = k.b ^ a;
        let c = k.c ^ b;
        let d = k.d ^ c;
        RoundKey {
            words: Columns { a, b, c, d },
            power: doubled(self.power),
        }
    }
}

// The product of a byte and x.
fn doubled(x: u8) -> u8
    ensures { result ≡ xtime x }
{
    (x << 1) ^ (x >> 7) * 0x1b
}

// The round keys of a key. In a clause it is the list of their bytes.
#[derive(Drop)]
pub(crate) struct KeySchedule {
    round_keys: [Columns; 11],
}

impl Model for KeySchedule {
    ghost use Rattle.std.specs.Prelude.{ℕ, List};

    ghost Value = { List ℕ };

    ghost use Rattle.std.specs.List.{flat_map};
    ghost use Rattle.cipher.specs.inner.AesTables.{bytes_of};

    ghost view = { λ s. flat_map bytes_of s.round_keys };
}

impl KeySchedule {
    pub(crate) fn new(key: [u8; 16]) -> KeySchedule
        ensures { result ≡ key_expansion key }
    {
        let mut key = RoundKey::first(key);
        let mut round_keys = [key.words; 11];
        for place in &mut round_keys[1..] {
            key = key.next();
            *place = key.words;
        }
        KeySchedule { round_keys }
    }

    pub(crate) fn encrypt_block(&self, block: [u8; 16]) -> [u8; 16]
        ensures { result ≡ cipher self.now block }
    {
        let mut state = Columns::load(block).add_round_key(self.round_keys[0]);
        for key in &self.round_keys[1..10] {
            state = state.sub_shift_mix().add_round_key(*key);
        }
        state.sub_shift().add_round_key(self.round_keys[10]).store()
    }

    pub(crate) fn decrypt_block(&self, block: [u8; 16]) -> [u8; 16]
        ensures { result ≡ inv_cipher self.now block }
    {
        let mut state = Columns::load(block).add_round_key(self.round_keys[10]);
        for key in self.round_keys[1..10].iter().rev() {
            state = state.inv_shift_sub().add_round_key(*key).inv_mix_columns();
        }
        state
            .inv_shift_sub()
            .add_round_key(self.round_keys[0])
            .store()
    }
}

// The key serves one block alone, so each round key is made in its round, which is faster than a schedule.
// The loop is that of encrypt_block: one over any source of round keys would have to ask it for the first and the last by themselves.
pub fn encrypt_aes128_block(data: [u8; 16], key: [u8; 16]) -> [u8; 16]
    ensures { result ≡ aes_encrypt key «data» }
{
    let mut key = RoundKey::first(key);
    let mut state = Columns::load(data).add_round_key(key.words);
    for _ in 0..9usize {
        key = key.next();
        state = state.sub_shift_mix().add_round_key(key.words);
    }
    // made before the look-ups of the last round, which is faster
    let last = key.next();
    state.sub_shift().add_round_key(last.words).store()
}

pub fn decrypt_aes128_block(data: [u8; 16], key: [u8; 16]) -> [u8; 16]
    ensures { result ≡ aes_decrypt key «data» }
{
    KeySchedule::new(key).decrypt_block(data)
}

// ---- tables

fn te(x: u8) -> u32
    ensures { word_bytes result ≡ multiples 0x02 0x03 0x01 0x01 (s_box x) }
{
    TE[x as usize]
}

// The second byte of the table's word.
fn s_box(x: u8) -> u8
    ensures { result ≡ s_box x }
{
    te(x).to_be_bytes()[1]
}

fn u(x: u8) -> u32
    ensures { word_bytes result ≡ multiples 0x0e 0x0b 0x0d 0x09 x }
{
    U[x as usize]
}

fn inv_s_box(x: u8) -> u8
    ensures { result ≡ inv_s_box x }
{
    INV_S[x as usize]
}

// Word x is 02 S(x), S(x), S(x), 03 S(x), with S the S-box.
static TE: [u32; 256] = [
    0xc66363a5, 0xf87c7c84, 0xee777799, 0xf67b7b8d, 0xfff2f20d, 0xd66b6bbd, 0xde6f6fb1, 0x91c5c554,
    0x60303050, 0x02010103, 0xce6767a9, 0x562b2b7d, 0xe7fefe19, 0xb5d7d762, 0x4dababe6, 0xec76769a,
    0x8fcaca45, 0x1f82829d, 0x89c9c940, 0xfa7d7d87, 0xeffafa15, 0xb25959eb, 0x8e4747c9, 0xfbf0f00b,
    0x41adadec, 0xb3d4d467, 0x5fa2a2fd, 0x45afafea, 0x239c9cbf, 0x53a4a4f7, 0xe4727296, 0x9bc0c05b,
    0x75b7b7c2, 0xe1fdfd1c, 0x3d9393ae, 0x4c26266a, 0x6c36365a, 0x7e3f3f41, 0xf5f7f702, 0x83cccc4f,
    0x6834345c, 0x51a5a5f4, 0xd1e5e534, 0xf9f1f108, 0xe2717193, 0xabd8d873, 0x62313153, 0x2a15153f,
    0x0804040c, 0x95c7c752, 0x46232365, 0x9dc3c35e, 0x30181828, 0x379696a1, 0x0a05050f, 0x2f9a9ab5,
    0x0e070709, 0x24121236, 0x1b80809b, 0xdfe2e23d, 0xcdebeb26, 0x4e272769, 0x7fb2b2cd, 0xea75759f,
    0x1209091b, 0x1d83839e, 0x582c2c74, 0x341a1a2e, 0x361b1b2d, 0xdc6e6eb2, 0xb45a5aee, 0x5ba0a0fb,
    0xa45252f6, 0x763b3b4d, 0xb7d6d661, 0x7db3b3ce, 0x5229297b, 0xdde3e33e, 0x5e2f2f71, 0x13848497,
    0xa65353f5, 0xb9d1d168, 0x00000000, 0xc1eded2c, 0x40202060, 0xe3fcfc1f, 0x79b1b1c8, 0xb65b5bed,
    0xd46a6abe, 0x8dcbcb46, 0x67bebed9, 0x7239394b, 0x944a4ade, 0x984c4cd4, 0xb05858e8, 0x85cfcf4a,
    0xbbd0d06b, 0xc5efef2a, 0x4faaaae5, 0xedfbfb16, 0x864343c5, 0x9a4d4dd7, 0x66333355, 0x11858594,
    0x8a4545cf, 0xe9f9f910, 0x04020206, 0xfe7f7f81, 0xa05050f0, 0x783c3c44, 0x259f9fba, 0x4ba8a8e3,
    0xa25151f3, 0x5da3a3fe, 0x804040c0, 0x058f8f8a, 0x3f9292ad, 0x219d9dbc, 0x70383848, 0xf1f5f504,
    0x63bcbcdf, 0x77b6b6c1, 0xafdada75, 0x42212163, 0x20101030, 0xe5ffff1a, 0xfdf3f30e, 0xbfd2d26d,
    0x81cdcd4c, 0x180c0c14, 0x26131335, 0xc3ecec2f, 0xbe5f5fe1, 0x359797a2, 0x884444cc, 0x2e171739,
    0x93c4c457, 0x55a7a7f2, 0xfc7e7e82, 0x7a3d3d47, 0xc86464ac, 0xba5d5de7, 0x3219192b, 0xe6737395,
    0xc06060a0, 0x19818198, 0x9e4f4fd1, 0xa3dcdc7f, 0x44222266, 0x542a2a7e, 0x3b9090ab, 0x0b888883,
    0x8c4646ca, 0xc7eeee29, 0x6bb8b8d3, 0x2814143c, 0xa7dede79, 0xbc5e5ee2, 0x160b0b1d, 0xaddbdb76,
    0xdbe0e03b, 0x64323256, 0x743a3a4e, 0x140a0a1e, 0x924949db, 0x0c06060a, 0x4824246c, 0xb85c5ce4,
    0x9fc2c25d, 0xbdd3d36e, 0x43acacef, 0xc46262a6, 0x399191a8, 0x319595a4, 0xd3e4e437, 0xf279798b,
    0xd5e7e732, 0x8bc8c843, 0x6e373759, 0xda6d6db7, 0x018d8d8c, 0xb1d5d564, 0x9c4e4ed2, 0x49a9a9e0,
    0xd86c6cb4, 0xac5656fa, 0xf3f4f407, 0xcfeaea25, 0xca6565af, 0xf47a7a8e, 0x47aeaee9, 0x10080818,
    0x6fbabad5, 0xf0787888, 0x4a25256f, 0x5c2e2e72, 0x381c1c24, 0x57a6a6f1, 0x73b4b4c7, 0x97c6c651,
    0xcbe8e823, 0xa1dddd7c, 0xe874749c, 0x3e1f1f21, 0x964b4bdd, 0x61bdbddc, 0x0d8b8b86, 0x0f8a8a85,
    0xe0707090, 0x7c3e3e42, 0x71b5b5c4, 0xcc6666aa, 0x904848d8, 0x06030305, 0xf7f6f601, 0x1c0e0e12,
    0xc26161a3, 0x6a35355f, 0xae5757f9, 0x69b9b9d0, 0x17868691, 0x99c1c158, 0x3a1d1d27, 0x279e9eb9,
    0xd9e1e138, 0xebf8f813, 0x2b9898b3, 0x22111133, 0xd26969bb, 0xa9d9d970, 0x078e8e89, 0x339494a7,
    0x2d9b9bb6, 0x3c1e1e22, 0x15878792, 0xc9e9e920, 0x87cece49, 0xaa5555ff, 0x50282878, 0xa5dfdf7a,
    0x038c8c8f, 0x59a1a1f8, 0x09898980, 0x1a0d0d17, 0x65bfbfda, 0xd7e6e631, 0x844242c6, 0xd06868b8,
    0x824141c3, 0x299999b0, 0x5a2d2d77, 0x1e0f0f11, 0x7bb0b0cb, 0xa85454fc, 0x6dbbbbd6, 0x2c16163a,
];

// Word x is 0e x, 09 x, 0d x, 0b x.
static U: [u32; 256] = [
    0x00000000, 0x0e090d0b, 0x1c121a16, 0x121b171d, 0x3824342c, 0x362d3927, 0x24362e3a, 0x2a3f2331,
    0x70486858, 0x7e416553, 0x6c5a724e, 0x62537f45, 0x486c5c74, 0x4665517f, 0x547e4662, 0x5a774b69,
    0xe090d0b0, 0xee99ddbb, 0xfc82caa6, 0xf28bc7ad, 0xd8b4e49c, 0xd6bde997, 0xc4a6fe8a, 0xcaaff381,
    0x90d8b8e8, 0x9ed1b5e3, 0x8ccaa2fe, 0x82c3aff5, 0xa8fc8cc4, 0xa6f581cf, 0xb4ee96d2, 0xbae79bd9,
    0xdb3bbb7b, 0xd532b670, 0xc729a16d, 0xc920ac66, 0xe31f8f57, 0xed16825c, 0xff0d9541, 0xf104984a,
    0xab73d323, 0xa57ade28, 0xb761c935, 0xb968c43e, 0x9357e70f, 0x9d5eea04, 0x8f45fd19, 0x814cf012,
    0x3bab6bcb, 0x35a266c0, 0x27b971dd, 0x29b07cd6, 0x038f5fe7, 0x0d8652ec, 0x1f9d45f1, 0x119448fa,
    0x4be30393, 0x45ea0e98, 0x57f11985, 0x59f8148e, 0x73c737bf, 0x7dce3ab4, 0x6fd52da9, 0x61dc20a2,
    0xad766df6, 0xa37f60fd, 0xb16477e0, 0xbf6d7aeb, 0x955259da, 0x9b5b54d1, 0x894043cc, 0x87494ec7,
    0xdd3e05ae, 0xd33708a5, 0xc12c1fb8, 0xcf2512b3, 0xe51a3182, 0xeb133c89, 0xf9082b94, 0xf701269f,
    0x4de6bd46, 0x43efb04d, 0x51f4a750, 0x5ffdaa5b, 0x75c2896a, 0x7bcb8461, 0x69d0937c, 0x67d99e77,
    0x3daed51e, 0x33a7d815, 0x21bccf08, 0x2fb5c203, 0x058ae132, 0x0b83ec39, 0x1998fb24, 0x1791f62f,
    0x764dd68d, 0x7844db86, 0x6a5fcc9b, 0x6456c190, 0x4e69e2a1, 0x4060efaa, 0x527bf8b7, 0x5c72f5bc,
    0x0605bed5, 0x080cb3de, 0x1a17a4c3, 0x141ea9c8, 0x3e218af9, 0x302887f2, 0x223390ef, 0x2c3a9de4,
    0x96dd063d, 0x98d40b36, 0x8acf1c2b, 0x84c61120, 0xaef93211, 0xa0f03f1a, 0xb2eb2807, 0xbce2250c,
    0xe6956e65, 0xe89c636e, 0xfa877473, 0xf48e7978, 0xdeb15a49, 0xd0b85742, 0xc2a3405f, 0xccaa4d54,
    0x41ecdaf7, 0x4fe5d7fc, 0x5dfec0e1, 0x53f7cdea, 0x79c8eedb, 0x77c1e3d0, 0x65daf4cd, 0x6bd3f9c6,
    0x31a4b2af, 0x3fadbfa4, 0x2db6a8b9, 0x23bfa5b2, 0x09808683, 0x07898b88, 0x15929c95, 0x1b9b919e,
    0xa17c0a47, 0xaf75074c, 0xbd6e1051, 0xb3671d5a, 0x99583e6b, 0x97513360, 0x854a247d, 0x8b432976,
    0xd134621f, 0xdf3d6f14, 0xcd267809, 0xc32f7502, 0xe9105633, 0xe7195b38, 0xf5024c25, 0xfb0b412e,
    0x9ad7618c, 0x94de6c87, 0x86c57b9a, 0x88cc7691, 0xa2f355a0, 0xacfa58ab, 0xbee14fb6, 0xb0e842bd,
    0xea9f09d4, 0xe49604df, 0xf68d13c2, 0xf8841ec9, 0xd2bb3df8, 0xdcb230f3, 0xcea927ee, 0xc0a02ae5,
    0x7a47b13c, 0x744ebc37, 0x6655ab2a, 0x685ca621, 0x42638510, 0x4c6a881b, 0x5e719f06, 0x5078920d,
    0x0a0fd964, 0x0406d46f, 0x161dc372, 0x1814ce79, 0x322bed48, 0x3c22e043, 0x2e39f75e, 0x2030fa55,
    0xec9ab701, 0xe293ba0a, 0xf088ad17, 0xfe81a01c, 0xd4be832d, 0xdab78e26, 0xc8ac993b, 0xc6a59430,
    0x9cd2df59, 0x92dbd252, 0x80c0c54f, 0x8ec9c844, 0xa4f6eb75, 0xaaffe67e, 0xb8e4f163, 0xb6edfc68,
    0x0c0a67b1, 0x02036aba, 0x10187da7, 0x1e1170ac, 0x342e539d, 0x3a275e96, 0x283c498b, 0x26354480,
    0x7c420fe9, 0x724b02e2, 0x605015ff, 0x6e5918f4, 0x44663bc5, 0x4a6f36ce, 0x587421d3, 0x567d2cd8,
    0x37a10c7a, 0x39a80171, 0x2bb3166c, 0x25ba1b67, 0x0f853856, 0x018c355d, 0x13972240, 0x1d9e2f4b,
    0x47e96422, 0x49e06929, 0x5bfb7e34, 0x55f2733f, 0x7fcd500e, 0x71c45d05, 0x63df4a18, 0x6dd64713,
    0xd731dcca, 0xd938d1c1, 0xcb23c6dc, 0xc52acbd7, 0xef15e8e6, 0xe11ce5ed, 0xf307f2f0, 0xfd0efffb,
    0xa779b492, 0xa970b999, 0xbb6bae84, 0xb562a38f, 0x9f5d80be, 0x91548db5, 0x834f9aa8, 0x8d4697a3,
];

// The inverse S-box.
static INV_S: [u8; 256] = [
    0x52, 0x09, 0x6a, 0xd5, 0x30, 0x36, 0xa5, 0x38, 0xbf, 0x40, 0xa3, 0x9e, 0x81, 0xf3, 0xd7, 0xfb,
    0x7c, 0xe3, 0x39, 0x82, 0x9b, 0x2f, 0xff, 0x87, 0x34, 0x8e, 0x43, 0x44, 0xc4, 0xde, 0xe9, 0xcb,
    0x54, 0x7b, 0x94, 0x32, 0xa6, 0xc2, 0x23, 0x3d, 0xee, 0x4c, 0x95, 0x0b, 0x42, 0xfa, 0xc3, 0x4e,
    0x08, 0x2e, 0xa1, 0x66, 0x28, 0xd9, 0x24, 0xb2, 0x76, 0x5b, 0xa2, 0x49, 0x6d, 0x8b, 0xd1, 0x25,
    0x72, 0xf8, 0xf6, 0x64, 0x86, 0x68, 0x98, 0x16, 0xd4, 0xa4, 0x5c, 0xcc, 0x5d, 0x65, 0xb6, 0x92,
    0x6c, 0x70, 0x48, 0x50, 0xfd, 0xed, 0xb9, 0xda, 0x5e, 0x15, 0x46, 0x57, 0xa7, 0x8d, 0x9d, 0x84,
    0x90, 0xd8, 0xab, 0x00, 0x8c, 0xbc, 0xd3, 0x0a, 0xf7, 0xe4, 0x58, 0x05, 0xb8, 0xb3, 0x45, 0x06,
    0xd0, 0x2c, 0x1e, 0x8f, 0xca, 0x3f, 0x0f, 0x02, 0xc1, 0xaf, 0xbd, 0x03, 0x01, 0x13, 0x8a, 0x6b,
    0x3a, 0x91, 0x11, 0x41, 0x4f, 0x67, 0xdc, 0xea, 0x97, 0xf2, 0xcf, 0xce, 0xf0, 0xb4, 0xe6, 0x73,
    0x96, 0xac, 0x74, 0x22, 0xe7, 0xad, 0x35, 0x85, 0xe2, 0xf9, 0x37, 0xe8, 0x1c, 0x75, 0xdf, 0x6e,
    0x47, 0xf1, 0x1a, 0x71, 0x1d, 0x29, 0xc5, 0x89, 0x6f, 0xb7, 0x62, 0x0e, 0xaa, 0x18, 0xbe, 0x1b,
    0xfc, 0x56, 0x3e, 0x4b, 0xc6, 0xd2, 0x79, 0x20, 0x9a, 0xdb, 0xc0, 0xfe, 0x78, 0xcd, 0x5a, 0xf4,
    0x1f, 0xdd, 0xa8, 0x33, 0x88, 0x07, 0xc7, 0x31, 0xb1, 0x12, 0x10, 0x59, 0x27, 0x80, 0xec, 0x5f,
    0x60, 0x51, 0x7f, 0xa9, 0x19, 0xb5, 0x4a, 0x0d, 0x2d, 0xe5, 0x7a, 0x9f, 0x93, 0xc9, 0x9c, 0xef,
    0xa0, 0xe0, 0x3b, 0x4d, 0xae, 0x2a, 0xf5, 0xb0, 0xc8, 0xeb, 0xbb, 0x3c, 0x83, 0x53, 0x99, 0x61,
    0x17, 0x2b, 0x04, 0x7e, 0xba, 0x77, 0xd6, 0x26, 0xe1, 0x69, 0x14, 0x63, 0x55, 0x21, 0x0c, 0x7d,
];

//! Images from a fixed sequence: words of any kind every fourth time, and else words that decode, behind a start that points registers at
//! memory, both devices and the timer, with rings whose numbers are of the sequence too.

use super::boot_shape;
use guest_machine::{DeviceState, Machine, Shape};
use rv64_core::Register;
use std::alloc::{AllocError, Global};
use std::process::Abort;
use virtqueue::Queue;

/// How many images there are, how many steps each makes, and how many words follow its start.
const IMAGES: u64 = 10_000;

const STEPS: u64 = 1000;

const WORDS: usize = 256;

/// What `interpreter images 10000` of oracle/interpreter prints.
const WANTED: u64 = 0xeb74_0f88_782f_828e;

/// Words that decode, as (mask, bits): each bit that the mask leaves out may be anything.
#[rattlefmt::skip]
static ROWS: [(u32, u32); 94] = [
    (0x0000007f, 0x00000037), // LUI
    (0x0000007f, 0x00000017), // AUIPC
    (0x0000007f, 0x0000006f), // JAL
    (0x0000707f, 0x00000067), // JALR
    (0x0000707f, 0x00000063), // BEQ
    (0x0000707f, 0x00001063), // BNE
    (0x0000707f, 0x00004063), // BLT
    (0x0000707f, 0x00005063), // BGE
    (0x0000707f, 0x00006063), // BLTU
    (0x0000707f, 0x00007063), // BGEU
    (0x0000707f, 0x00000003), // LB
    (0x0000707f, 0x00001003), // LH
    (0x0000707f, 0x00002003), // LW
    (0x0000707f, 0x00003003), // LD
    (0x0000707f, 0x00004003), // LBU
    (0x0000707f, 0x00005003), // LHU
    (0x0000707f, 0x00006003), // LWU
    (0x0000707f, 0x00000023), // SB
    (0x0000707f, 0x00001023), // SH
    (0x0000707f, 0x00002023), // SW
    (0x0000707f, 0x00003023), // SD
    (0x0000707f, 0x00000013), // ADDI
    (0x0000707f, 0x00002013), // SLTI
    (0x0000707f, 0x00003013), // SLTIU
    (0x0000707f, 0x00004013), // XORI
    (0x0000707f, 0x00006013), // ORI
    (0x0000707f, 0x00007013), // ANDI
    (0xfc00707f, 0x00001013), // SLLI
    (0xfc00707f, 0x00005013), // SRLI
    (0xfc00707f, 0x40005013), // SRAI
    (0xfe00707f, 0x00000033), // ADD
    (0xfe00707f, 0x00001033), // SLL
    (0xfe00707f, 0x00002033), // SLT
    (0xfe00707f, 0x00003033), // SLTU
    (0xfe00707f, 0x00004033), // XOR
    (0xfe00707f, 0x00005033), // SRL
    (0xfe00707f, 0x00006033), // OR
    (0xfe00707f, 0x00007033), // AND
    (0xfe00707f, 0x40000033), // SUB
    (0xfe00707f, 0x40005033), // SRA
    (0xfe00707f, 0x02000033), // MUL
    (0xfe00707f, 0x02001033), // MULH
    (0xfe00707f, 0x02002033), // MULHSU
    (0xfe00707f, 0x02003033), // MULHU
    (0xfe00707f, 0x02004033), // DIV
    (0xfe00707f, 0x02005033), // DIVU
    (0xfe00707f, 0x02006033), // REM
    (0xfe00707f, 0x02007033), // REMU
    (0x0000707f, 0x0000001b), // ADDIW
    (0xfe00707f, 0x0000101b), // SLLIW
    (0xfe00707f, 0x0000501b), // SRLIW
    (0xfe00707f, 0x4000501b), // SRAIW
    (0xfe00707f, 0x0000003b), // ADDW
    (0xfe00707f, 0x0000103b), // SLLW
    (0xfe00707f, 0x0000503b), // SRLW
    (0xfe00707f, 0x4000003b), // SUBW
    (0xfe00707f, 0x4000503b), // SRAW
    (0xfe00707f, 0x0200003b), // MULW
    (0xfe00707f, 0x0200403b), // DIVW
    (0xfe00707f, 0x0200503b), // DIVUW
    (0xfe00707f, 0x0200603b), // REMW
    (0xfe00707f, 0x0200703b), // REMUW
    (0x0000707f, 0x0000000f), // FENCE
    (0xffffffff, 0x00000073), // ECALL
    (0xffffffff, 0x00100073), // EBREAK
    (0xffffffff, 0x30200073), // MRET
    (0xffffffff, 0x10500073), // WFI
    (0xfff0707f, 0x30001073), // CSRRW mstatus
    (0xfff0707f, 0x30002073), // CSRRS mstatus
    (0xfff0707f, 0x30007073), // CSRRCI mstatus
    (0xfff0707f, 0x30401073), // CSRRW mie
    (0xfff0707f, 0x30402073), // CSRRS mie
    (0xfff0707f, 0x30407073), // CSRRCI mie
    (0xfff0707f, 0x34001073), // CSRRW mscratch
    (0xfff0707f, 0x34002073), // CSRRS mscratch
    (0xfff0707f, 0x34007073), // CSRRCI mscratch
    (0xfff0707f, 0x34101073), // CSRRW mepc
    (0xfff0707f, 0x34102073), // CSRRS mepc
    (0xfff0707f, 0x34107073), // CSRRCI mepc
    (0xfff0707f, 0x34201073), // CSRRW mcause
    (0xfff0707f, 0x34202073), // CSRRS mcause
    (0xfff0707f, 0x34207073), // CSRRCI mcause
    (0xfff0707f, 0x34301073), // CSRRW mtval
    (0xfff0707f, 0x34302073), // CSRRS mtval
    (0xfff0707f, 0x34307073), // CSRRCI mtval
    (0xfff0707f, 0x34401073), // CSRRW mip
    (0xfff0707f, 0x34402073), // CSRRS mip
    (0xfff0707f, 0x34407073), // CSRRCI mip
    (0xffffffff, 0x0401a823), // SW x0, 0x50(x3): notify the disk
    (0xffffffff, 0x04612823), // SW x6, 0x50(x2): notify the card
    (0xffffffff, 0x0401a823), // SW x0, 0x50(x3): notify the disk
    (0xffffffff, 0x04612823), // SW x6, 0x50(x2): notify the card
    (0xffffffff, 0x0401a823), // SW x0, 0x50(x3): notify the disk
    (0xffffffff, 0x04612823), // SW x6, 0x50(x2): notify the card
];

/// How each image begins whose words decode: the disk is set up with its rings at 0x80001000 and the card with its queue 1 at 0x80001400,
/// as the beacon sets up its card. Then the trap handler is what follows, which points x1 at memory, x2 and x3 at both devices, and x4 and
/// x5 at the timer, and enables each interrupt in mie.
#[rattlefmt::skip]
static START: [u32; 55] = [
    0x100022b7, 0x00100313, 0x0662a823, 0x00300393, 0x0672a823, 0x0262a223, 0x0262a023, 0x00b00393,
    0x0672a823, 0x0702a403, 0x0202a823, 0x00400393, 0x0272ac23, 0x800013b7, 0x0872a023, 0x04038393,
    0x0872a823, 0x04038393, 0x0a72a023, 0x0462a223, 0x00f00393, 0x0672a823, 0x100012b7, 0x00100313,
    0x0662a823, 0x00300393, 0x0672a823, 0x0262a223, 0x0262a023, 0x00b00393, 0x0672a823, 0x0702a403,
    0x0262a823, 0x00400393, 0x0272ac23, 0x800013b7, 0x40038393, 0x0872a023, 0x04038393, 0x0872a823,
    0x04038393, 0x0a72a023, 0x0462a223, 0x00f00393, 0x0672a823, 0x00000397, 0x30539073, 0x00001097,
    0x10001137, 0x100021b7, 0x02004237, 0x0200c2b7, 0x00100313, 0xfff00413, 0x30441073,
];

/// A linear congruence modulo 2^64, of which the upper half is taken.
#[derive(Drop)]
struct Sequence {
    state: u64,
}

impl Sequence {
    fn next(&mut self) -> u32 {
        self.state = self
            .state
            .wrapping_mul(6364136223846793005)
            .wrapping_add(1442695040888963407);
        (self.state >> 32) as u32
    }

    /// A number below `end`, which isn't 0.
    fn below(&mut self, end: u32) -> u32 {
        self.next().checked_rem(end).unwrap_or(0)
    }

    /// Two numbers below 4, in 16 bits each.
    fn pair(&mut self) -> u32 {
        let low = self.below(4);
        low | self.below(4) << 16
    }

    /// A word that decodes. Loads and stores go where the start points; other words write none of those registers.
    fn word(&mut self) -> u32 {
        let row = self.below(94) as usize;
        let Some((mask, bits)) = ROWS.get(row) else {
            return 0;
        };
        let word = self.next() & !*mask | *bits;
        if *mask == u32::MAX {
            return word;
        }
        match word & 0x7f {
            0x23 => self.pointed(word),
            0x03 => self.pointed(word) | 0x800,
            0x63 => word,
            _ => word | 0x800,
        }
    }

    /// The word with one of x1 to x5 as its rs1.
    fn pointed(&mut self, word: u32) -> u32 {
        word & !0xf8000 | self.below(5).wrapping_add(1) << 15
    }

    /// Four descriptors and an available ring, and no words behind it up to the next place.
    fn rings(&mut self, image: &mut Vec<u8>) -> Result<(), AllocError> {
        for _ in 0..4u8 {
            let address = self.below(64).wrapping_mul(16).wrapping_add(0x8000_1800);
            let length = self.below(700);
            let flags = self.pair();
            push_words(image, &[address, 0, length, flags])?;
        }
        let index = self.below(5) << 16;
        let (first, second) = (self.pair(), self.pair());
        push_words(image, &[index, first, second])
    }

    /// Heads of requests.
    fn heads(&mut self, image: &mut Vec<u8>) -> Result<(), AllocError> {
        for _ in 0..64u8 {
            let kind = self.below(6);
            let sector = self.below(9);
            push_words(image, &[kind, 0, sector, 0])?;
        }
        Ok(())
    }
}

fn push_words(image: &mut Vec<u8>, words: &[u32]) -> Result<(), AllocError> {
    for word in words {
        image.extend_from_slice(&word.to_le_bytes())?;
    }
    Ok(())
}

/// Words of any kind.
fn any_words(alloc: Global, sequence: &mut Sequence) -> Result<Vec<u8>, AllocError> {
    let mut image = Vec::new(alloc);
    for _ in 0..WORDS {
        push_words(&mut image, &[sequence.next()])?;
    }
    Ok(image)
}

/// Words that decode, behind the start, and the rings.
fn good_words(alloc: Global, sequence: &mut Sequence) -> Result<Vec<u8>, AllocError> {
    let mut image = Vec::new(alloc);
    put_words(&mut image, sequence)?;
    put_rings(&mut image, sequence)?;
    Ok(image)
}

/// The start and the words.
fn put_words(image: &mut Vec<u8>, sequence: &mut Sequence) -> Result<(), AllocError> {
    push_words(image, &START)?;
    for _ in 0..WORDS {
        push_words(image, &[sequence.word()])?;
    }
    Ok(())
}

/// The rings of both devices, and what heads of requests there are, each at its place.
fn put_rings(image: &mut Vec<u8>, sequence: &mut Sequence) -> Result<(), AllocError> {
    image.resize(0x1000, 0)?;
    sequence.rings(image)?;
    image.resize(0x1400, 0)?;
    sequence.rings(image)?;
    image.resize(0x1800, 0)?;
    sequence.heads(image)
}

fn image(alloc: Global, index: u64) -> Result<Vec<u8>, AllocError> {
    let mut sequence = Sequence { state: index };
    if index % 4 == 3 {
        any_words(alloc, &mut sequence)
    } else {
        good_words(alloc, &mut sequence)
    }
}

/// FNV-1a over words of 8 bytes.
#[derive(Drop)]
struct Fold {
    sum: u64,
}

impl Fold {
    fn add(&mut self, value: u64) {
        self.sum = (self.sum ^ value).wrapping_mul(0x100_0000_01b3);
    }

    fn registers(&mut self, machine: &Machine) {
        for number in 0..32u8 {
            if let Some(register) = Register::new(number) {
                self.add(machine.register(register));
            }
        }
    }

    fn memory(&mut self, machine: &Machine) {
        let mut word = 0u64;
        for at in 0..machine.ram_size() {
            word = word >> 8 | u64::from(machine.byte(at)) << 56;
            if at % 8 == 7 {
                self.add(word);
            }
        }
    }

    fn sectors(&mut self, machine: &Machine) {
        for sector in 0..machine.sectors() {
            self.bytes(machine.sector(sector).as_slice());
        }
    }

    fn bytes(&mut self, bytes: &[u8]) {
        let mut word = 0u64;
        for (at, byte) in bytes.iter().enumerate() {
            word = word >> 8 | u64::from(*byte) << 56;
            if at % 8 == 7 {
                self.add(word);
            }
        }
    }

    fn record(&mut self, record: DeviceState) {
        self.add(record.status.into());
        self.add(record.device_features_sel.into());
        self.add(record.driver_features_sel.into());
        self.add(record.driver_features);
        self.add(record.queue_sel.into());
        self.add(record.interrupt_status.into());
        for queue in &record.queues {
            self.queue(queue);
        }
    }

    fn queue(&mut self, queue: &Queue) {
        self.add(queue.num.into());
        self.add(queue.ready.into());
        self.add(queue.desc);
        self.add(queue.driver);
        self.add(queue.device);
        self.add(queue.next_available.into());
        self.add(queue.next_used.into());
    }
}

/// So many steps, where a full outbox is emptied.
fn run_on(machine: &mut Machine) {
    let mut left = STEPS;
    for _ in 0..STEPS {
        if left == 0 {
            return;
        }
        left = left.saturating_sub(machine.run(left));
        machine.clear_outbox();
    }
}

/// What an image's machine is after its steps.
fn fold_machine(fold: &mut Fold, machine: &Machine) {
    fold.add(machine.steps());
    fold.add(machine.pc());
    fold.registers(machine);
    fold.memory(machine);
    fold.sectors(machine);
    fold.record(machine.net());
    fold.record(machine.disk());
}

fn fold_image(rt: &impl Abort, alloc: Global, fold: &mut Fold, index: u64) {
    let image = image(alloc, index).expect(rt, "memory for the image");
    let shape = Shape {
        pages: 2,
        sectors: 8,
    };
    let mut machine = boot_shape(rt, alloc, shape, &image);
    run_on(&mut machine);
    fold_machine(fold, &machine);
}

#[test]
fn ten_thousand_images_end_as_in_plain_rust(rt: HostRuntime) {
    let mut fold = Fold {
        sum: 0xcbf2_9ce4_8422_2325,
    };
    for index in 0..IMAGES {
        fold_image(&rt, rt.alloc(), &mut fold, index);
    }
    assert_eq!(rt; fold.sum, WANTED);
}

// The texts, as in specs/Table.antt.
#![tactic(auto)]

ghost use Rattle.std.specs.Prelude.{◌≡◌};
ghost use Rattle.text.specs.Bytes.{bytes};
ghost use Rattle.template.specs.Fill.{filled};
ghost use Rattle.sentences.specs.Table.{run_text, check_text, call_text};

use arrayvec::ArrayVec;
use template::fill;

// The answer of a run, in sentences.
pub fn run_text(answer: u32, address: u32, count: u32) -> ArrayVec<u8, 1024>
    ensures { result.items ≡ filled (bytes (run_text answer)) address count }
{
    fill(text_of_run(answer), address, count)
}

// The answer of the loading check, in sentences.
pub fn check_text(answer: u32, address: u32, count: u32) -> ArrayVec<u8, 1024>
    ensures { result.items ≡ filled (bytes (check_text answer)) address count }
{
    fill(text_of_check(answer), address, count)
}

// The answer of a run. The functions match on the number itself, since it was read off a text and may be any.
#[tactic(auto, unfolding(crate::specs::Table::run_text, crate::specs::Table::run_rows, crate::specs::Table::text_in, text::specs::Bytes::bytes))]
fn text_of_run(answer: u32) -> &'static [u8]
    ensures { result.now ≡ bytes (run_text answer) }
{
    match answer {
        0 => {
            b"0: the program is still running.\n\
              What happened: it used all # steps that it was allowed, and had not ended by then.\n\
              Where to look: at the line steps of the card, which says #. The program would go on at address @.\n\
              What to do: if it is made to go on without an end, show it with gpu kiosk and the word --endless, until \
              somebody presses Ctrl and C together. If it should have ended by now, it may never end: keep the card \
              for the person who wrote the program.\n"
        }
        1 => {
            b"1: the program has stopped.\n\
              What happened: the program ended by itself, and this run had # steps.\n\
              Where to look: at the line steps of the card. If it says 0, the program had stopped before. The counter \
              stands at address @.\n\
              What to do: read the results. Whether they are as they should be, the person who wrote the program \
              knows. To see the program again, start it again from its image.\n"
        }
        11 => {
            b"11: this is not an instruction.\n\
              What happened: the number at address @ is no instruction of this machine.\n\
              Where to look: at address @, which is the line pc of the card. Either the image is damaged there, or the \
              program ran on into its data.\n\
              What to do: copy the image again from the archive and run it once more. If 11 comes back, check the \
              program with gpu check, and give its length where the file states none: the answer names an instruction \
              that is not safe. Give both answers to the person who wrote the program.\n"
        }
        12 => {
            b"12: there is no whole instruction to go on with.\n\
              What happened: the next instruction should begin at address @, and the memory has no whole instruction \
              there.\n\
              Where to look: at the line pc of the card, which says @. Below F03000 and above F03FFF is outside the \
              memory. If the last digit is 1, 3, 5, 7, 9, B, D or F, a jump led to an odd address, and instructions \
              begin at even ones. If the address is F03FFC or F03FFE, a MOVEI begins there, which has three words, and \
              the memory ends before the last.\n\
              What to do: see that the image is the right one, copy it again and run it once more. If 12 comes back, \
              check the program with gpu check, and give its length where the file states none: the answer names an \
              instruction that is not safe. Give both answers to the person who wrote the program.\n"
        }
        13 => {
            b"13: an address is not a multiple of four.\n\
              What happened: the instruction at address @ wanted to read or write four bytes at a place whose address \
              four does not divide.\n\
              Where to look: in the program file, at the instruction at address @; gpu show lists each instruction \
              with its address. The register in its brackets holds the place.\n\
              What to do: if the program was given new data, run it with the old data first. If 13 comes back, check \
              the program with gpu check, and give its length where the file states none: the answer names an \
              instruction that is not safe. Give both answers to the person who wrote the program.\n"
        }
        14 => {
            b"14: there is nothing at that place.\n\
              What happened: the instruction at address @ wanted to read or write at a place where this machine has \
              nothing.\n\
              Where to look: in the program file, at the instruction at address @; gpu show lists each instruction \
              with its address. The register in its brackets holds the place. It may be F03000 to F03FFF, or one of \
              the chip registers F02100, F02114 and F0211C.\n\
              What to do: if the program was given new data, run it with the old data first. If 14 comes back, check \
              the program with gpu check, and give its length where the file states none: the answer names an \
              instruction that is not safe. Give both answers to the person who wrote the program.\n"
        }
        15 => {
            b"15: this instruction may not follow a jump.\n\
              What happened: the instruction at address @ came directly after a jump that was taken, and may not come \
              there.\n\
              Where to look: in the program file, at the instruction at address @, which is a jump, a MOVEI or a MOVE \
              PC, and at the jump before it; gpu show lists each instruction with its address.\n\
              What to do: copy the image again from the archive and run it once more. If 15 comes back, show it to the \
              person who wrote the program. The mend is often a NOP between the two, but only that person can put it \
              in, since it moves all that stands behind it: places that jumps lead to, and the length.\n"
        }
        _ => text_of_call(answer),
    }
}

// The answer of the loading check.
#[tactic(auto, unfolding(crate::specs::Table::check_text, crate::specs::Table::check_rows, crate::specs::Table::text_in, text::specs::Bytes::bytes))]
fn text_of_check(answer: u32) -> &'static [u8]
    ensures { result.now ≡ bytes (check_text answer) }
{
    match answer {
        0 => {
            b"0: the program may run.\n\
              What happened: the check found nothing wrong, so whatever its data, this program will not break off.\n\
              Where to look: nowhere, since nothing has to be mended.\n\
              What to do: run it with gpu run.\n"
        }
        21 => {
            b"21: this is not an instruction, or it is cut off.\n\
              What happened: the number at address @ is no instruction of this machine, or the program ends in the \
              middle of it.\n\
              Where to look: in the program file, at address @, and at the length; gpu show lists each instruction \
              with its address.\n\
              What to do: see that the length is that of this program, copy the image again from the archive, and \
              check it once more. If 21 comes back, compare with the example of 21 on the page of numbers, and tell \
              the address to the person who wrote the program.\n"
        }
        22 => {
            b"22: a jump leads to nowhere.\n\
              What happened: the JR at address @ leads to a place where no instruction of this program begins.\n\
              Where to look: in the program file, at the JR at address @; gpu show lists each instruction with its \
              address, and the place that a JR leads to.\n\
              What to do: see that the length is that of this program: one that is too short cuts the place off. Check \
              it once more. If 22 comes back, compare with the example of 22 on the page of numbers, and tell the \
              address to the person who wrote the program.\n"
        }
        23 => {
            b"23: a JUMP without its address.\n\
              What happened: the JUMP at address @ must come directly after a MOVEI that gives its register the \
              address of an instruction, and no other jump may lead to it.\n\
              Where to look: in the program file, at the JUMP at address @, and at the instruction before it; gpu show \
              lists each instruction with its address.\n\
              What to do: see that the length is that of this program, and check it once more. If 23 comes back, \
              compare with the example of 23 on the page of numbers, and tell the address to the person who wrote the \
              program.\n"
        }
        24 => {
            b"24: the wrong instruction after a jump.\n\
              What happened: the jump at address @ must have one more instruction after it, which is no jump, no MOVEI \
              and no MOVE PC.\n\
              Where to look: in the program file, at the jump at address @, and at the instruction after it; gpu show \
              lists each instruction with its address.\n\
              What to do: see that the length is that of this program: one that is too short cuts that instruction \
              off. Check it once more. If 24 comes back, show it to the person who wrote the program. The mend is \
              often a NOP after the jump, but only that person can put it in, since it moves all that stands behind \
              it: places that jumps lead to, and the length.\n"
        }
        25 => {
            b"25: the program has no proper end.\n\
              What happened: a program must end with a jump that has no condition and one more instruction, to which \
              no jump leads.\n\
              Where to look: in the program file, at the last instruction, at address @, and at the one before it; gpu \
              show lists each instruction with its address.\n\
              What to do: see that the length is that of this program: another length gives it another end. Check it \
              once more. If 25 comes back, compare with the example of 25 on the page of numbers, and tell the address \
              to the person who wrote the program.\n"
        }
        26 => {
            b"26: a place is not sure.\n\
              What happened: the check can not see that the LOAD or STORE at address @ stays where it may.\n\
              Where to look: in the program file, at the instruction at address @, and at how the register in its \
              brackets got its content; gpu show lists each instruction with its address. A LOAD may go to all of the \
              memory, a STORE only behind the program, and both to the chip registers.\n\
              What to do: see that the length is that of this program, and check it once more. If 26 comes back, show \
              it to the person who wrote the program. A MOVEI just before it is often the mend, as in the example of \
              26 on the page of numbers.\n"
        }
        _ => text_of_call(answer),
    }
}

// The answer of a refused call, or a number that is none of these.
fn text_of_call(answer: u32) -> &'static [u8]
    ensures { result.now ≡ bytes (call_text answer) }
{
    match answer {
        31 => {
            b"31: the image has the wrong length.\n\
              What happened: the image is not exactly 4,096 bytes long.\n\
              Where to look: at the size of the image file.\n\
              What to do: choose the right file, or copy it again from the archive. If you have the program file, \
              whose name ends in words, use that one: gpu run and gpu check make the image of it.\n"
        }
        32 => {
            b"32: too many steps were asked for.\n\
              What happened: the kiosk asked for more than 1,000,000 steps at once.\n\
              Where to look: at the number of steps that is set in the kiosk program.\n\
              What to do: tell the person who looks after the kiosk, who sets 1,000,000 or less. The kiosk can call \
              again to go on.\n"
        }
        33 => {
            b"33: the length of the program is wrong.\n\
              What happened: the length is not a multiple of four from 4 to 4,096.\n\
              Where to look: at the number that you gave, or at the line length at the top of the program file.\n\
              What to do: give the length of this program. If it stands nowhere, count the words of the program, each \
              of four digits, but not those of its data, and take twice their number. If that is not a multiple of \
              four, the number of words is odd, and the person who wrote the program has to add a NOP.\n"
        }
        34 => {
            b"34: the saved state is not valid.\n\
              What happened: the saved state has a bit set that means nothing, or the target of a jump where no jump \
              is waiting.\n\
              Where to look: at where the kiosk program got the state from. The numbers in question begin at byte 260 \
              and at byte 272.\n\
              What to do: start the program again from its image. If 34 comes back, keep a copy of the saved state for \
              the person who wrote the kiosk program.\n"
        }
        35 => {
            b"35: the saved state has the wrong length.\n\
              What happened: the saved state is not exactly 276 bytes long.\n\
              Where to look: at the size of the saved state that the kiosk program handed over.\n\
              What to do: start the program again from its image. A saved state that is too short can not be mended.\n"
        }
        _ => {
            b"This number is not known here.\n\
              What happened: the line answer has a number that such a text never has.\n\
              Where to look: at the first line of the text.\n\
              What to do: run the command again and explain its whole output. If the number comes back, keep the text \
              for the person who looks after these commands.\n"
        }
    }
}

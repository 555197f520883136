/// Lines of words, and the jobs that they write, with a bar between them and a line feed after each pair but the last.
/// Of a chip stand the harts, the bytes of memory, whether they are halted, the seed, the most rounds, the limit of events and a release other than 1.0; of `both` then the most bytes
/// of a piece. The way to the chip comes last, of a chain the lengths near TDO and far from it.
pub(super) const JOBS: &str = "both --gen 5|1 65536 false 0 1 16777200 256 straight\n\
both --gen=0x5 --|1 65536 false 0 1 16777200 256 straight\n\
both --halted --gen 5|1 65536 true 0 1 16777200 256 straight\n\
both --loopback --gen 5|1 65536 false 0 1 16777200 256 looped\n\
both --v013 --gen 5|1 65536 false 0 1 16777200 of 0.13 256 straight\n\
both --gen 5 --loopback --v013 --halted|1 65536 true 0 1 16777200 of 0.13 256 looped\n\
both --gen 5 --halted --v013 --chain t,8|1 65536 true 0 1 16777200 of 0.13 256 near [8] far []\n\
both --gen 5 --harts 0|0 65536 false 0 1 16777200 256 straight\n\
both --gen 5 --ram=0xABcd|1 43981 false 0 1 16777200 256 straight\n\
both --gen 5 --seed 18446744073709551615|1 65536 false 18446744073709551615 1 16777200 256 straight\n\
both --gen 5 --seed 0xffffFFFFffffFFFF|1 65536 false 18446744073709551615 1 16777200 256 straight\n\
both --gen 5 --seed 00000000000000000007|1 65536 false 7 1 16777200 256 straight\n\
both --gen 5 --busy 1|1 65536 false 0 1 16777200 256 straight\n\
both --gen 5 --busy 32|1 65536 false 0 32 16777200 256 straight\n\
both --gen 5 --busy 032|1 65536 false 0 32 16777200 256 straight\n\
both --gen 5 --busy 0x20|1 65536 false 0 32 16777200 256 straight\n\
both --gen 5 --events 1|1 65536 false 0 1 1 256 straight\n\
both --gen 5 --events 4611686018427387904|1 65536 false 0 1 4611686018427387904 256 straight\n\
both --gen 5 --events=0x4000000000000000|1 65536 false 0 1 4611686018427387904 256 straight\n\
both --gen 5 --piece 1|1 65536 false 0 1 16777200 1 straight\n\
both --gen 5 --piece 256|1 65536 false 0 1 16777200 256 straight\n\
both --gen 5 --chain 4,t,6|1 65536 false 0 1 16777200 256 near [6] far [4]\n\
both --gen 5 --chain t,8|1 65536 false 0 1 16777200 256 near [8] far []\n\
both --chain=8,t --gen 5|1 65536 false 0 1 16777200 256 near [] far [8]\n\
both --gen 5 --chain 04,t|1 65536 false 0 1 16777200 256 near [] far [4]\n\
both --gen 5 --chain 0x8,t|1 65536 false 0 1 16777200 256 near [] far [8]\n\
both --gen 5 --chain t,2,3,4,5,6,7,8|1 65536 false 0 1 16777200 256 near [8, 7, 6, 5, 4, 3, 2] far []\n\
both --gen 5 --chain 2,3,4,5,6,7,8,t|1 65536 false 0 1 16777200 256 near [] far [8, 7, 6, 5, 4, 3, 2]\n\
both --gen 5 --chain 2,3,4,t,5,6,7|1 65536 false 0 1 16777200 256 near [7, 6, 5] far [4, 3, 2]\n\
both --script=--halt --image core.bin|Files { image: \"core.bin\", script: \"--halt\" } 1 65536 false 0 1 16777200 256 straight\n\
both --elf e --script s|e loaded, s 1 65536 false 0 1 16777200 256\n\
both --script=s --elf=e --harts 4 --ram 131072 --halted --seed 7 --busy 32 --events 9 --piece 1 --v013|e loaded, s 4 131072 true 7 32 9 of 0.13 1\n\
both --script=--elf --elf=--script|--script loaded, --elf 1 65536 false 0 1 16777200 256\n\
both --soft --image i --script s|i s with software breakpoints 1 65536 false 0 1 16777200 256\n\
both --script=s --harts 4 --image=i --ram 131072 --halted --seed 7 --busy 32 --events 9 --soft --piece 1 --v013|i s with software breakpoints 4 131072 true 7 32 9 of 0.13 1\n\
both --image=--script --soft --script=--soft|--script --soft with software breakpoints 1 65536 false 0 1 16777200 256\n\
probe --at localhost:9000 --script probe|localhost:9000 probe straight\n\
probe --script s --elf e --at a|a e loaded, s\n\
probe --soft --at a --script s|a s with software breakpoints\n\
probe --script=s --at=--soft --soft|--soft s with software breakpoints\n\
probe --at a --script s --chain 4,t,6|a s near [6] far [4]\n\
chip --at  --image a --halted --harts 4| a 4 65536 true 0 1 16777200 straight\n\
chip --v013 --at a --image i|a i 1 65536 false 0 1 16777200 of 0.13 straight\n\
chip --at a --halted --image i --v013|a i 1 65536 true 0 1 16777200 of 0.13 straight\n\
chip --at a --image i --events 1000000000|a i 1 65536 false 0 1 1000000000 straight\n\
chip --at a --image i --chain t,8|a i 1 65536 false 0 1 16777200 near [8] far []\n\
sniff --stream s --answers a|s a listed\n\
sniff --vcd --answers=s --stream=a|a s drawn";

/// Lines of words that write no job, with a line feed after each but the last: no program or another; an option of another
/// program, an unknown or a shortened one, or one that asks for help or a version; an option twice, a missing value, a flag with
/// one, or a word that is no option; inputs that are missing or given twice; words that are no number; numbers out of range; lists that write no chain, or
/// one that stands beside `--loopback`; an ELF file without a script, or beside what may not stand there; software breakpoints
/// without an image or a script, or beside what may not stand there.
pub(super) const REFUSED: &str = "\n\
Both --gen 5\n\
bench --gen 5\n\
--gen 5 both\n\
help\n\
both --gen 5 --at a\n\
probe --at a --script s --image i\n\
probe --at a --script s --halted\n\
probe --at a --script s --v013\n\
chip --at a --image i --script s\n\
chip --at a --image i --piece 1\n\
chip --at a --image i --loopback\n\
chip --at a --image i --gen 5\n\
both --gen 5 --speed 1\n\
both --ge 5\n\
both -g 5\n\
both --gen 5 --help\n\
both --gen 5 -h\n\
both --gen 5 --version\n\
both --gen 5 --gen 5\n\
both --gen 5 --halted --halted\n\
both --gen\n\
both --gen --halted\n\
both --gen 5 --halted=true\n\
both --gen 5 --v013 --v013\n\
both --gen 5 --v013=true\n\
both --gen 5 --V013\n\
both --gen 5 more\n\
both --gen 5 -- more\n\
both  --gen 5\n\
both\n\
both --image i\n\
both --script s\n\
both --gen 5 --image i\n\
both --gen 5 --script s\n\
both --gen 5 --image i --script s\n\
probe\n\
probe --at a\n\
probe --script s\n\
chip\n\
chip --at a\n\
chip --image i\n\
both --gen=\n\
both --gen x\n\
both --gen +5\n\
both --gen=-5\n\
both --gen 5_0\n\
both --gen 0x\n\
both --gen 0X5\n\
both --gen 18446744073709551616\n\
both --gen 0x00000000000000005\n\
both --gen 000000000000000000005\n\
both --gen 5 --harts one\n\
both --gen 5 --ram 64k\n\
chip --at a --image i --seed 0xg\n\
both --gen 5 --busy 0\n\
chip --at a --image i --busy 33\n\
both --gen 5 --busy 0x21\n\
both --gen 5 --events 0\n\
chip --at a --image i --events 4611686018427387905\n\
both --gen 5 --events\n\
probe --at a --script s --events 1\n\
both --gen 5 --events 1 --events 1\n\
both --gen 5 --piece 0\n\
both --gen 5 --piece 257\n\
sniff\n\
Sniff --stream s --answers a\n\
sniff --stream s\n\
sniff --answers a\n\
sniff --vcd\n\
sniff --stream s --answers a --vcd=true\n\
sniff --stream s --answers a --vcd --vcd\n\
sniff --stream s --answers a --stream s\n\
sniff --stream s --answers a --script s\n\
sniff --stream s --answers a --halted\n\
sniff --stream s --answers a --v013\n\
sniff s a\n\
both --gen 5 --vcd\n\
chip --at a --image i --stream s\n\
both --gen 5 --chain t\n\
both --gen 5 --chain 4\n\
both --gen 5 --chain 4,4\n\
both --gen 5 --chain t,t\n\
both --gen 5 --chain 4,t,t\n\
both --gen 5 --chain 4,,t\n\
both --gen 5 --chain ,t\n\
both --gen 5 --chain 4,t,\n\
both --gen 5 --chain 1,t\n\
both --gen 5 --chain t,1\n\
both --gen 5 --chain 9,t\n\
both --gen 5 --chain t,9\n\
both --gen 5 --chain 260,t\n\
both --gen 5 --chain=\n\
both --gen 5 --chain 2,2,2,2,t,2,2,2,2\n\
both --gen 5 --chain t,2,2,2,2,2,2,2,2\n\
both --gen 5 --chain 2,2,2,2,2,2,2,2,t\n\
both --gen 5 --chain T,4\n\
both --gen 5 --chain 4;t\n\
both --gen 5 --chain t.4\n\
both --gen 5 --chain four,t\n\
both --gen 5 --chain 4,tt\n\
both --gen 5 --chain\n\
both --gen 5 --chain 4,t --chain 4,t\n\
both --gen 5 --chain 4,t --loopback\n\
both --gen 5 --loopback --chain t,8\n\
probe --at a --script s --chain t\n\
chip --at a --image i --chain t\n\
sniff --stream s --answers a --chain 4,t\n\
both --elf e\n\
both --elf\n\
both --elf e --elf e --script s\n\
both --elf e --script s --image i\n\
both --elf e --image i\n\
both --elf e --gen 5\n\
both --elf e --script s --gen 5\n\
both --elf e --script s --chain 4,t\n\
both --elf e --script s --loopback\n\
both --elf e --script s --piece 257\n\
both --elf e --script s --busy 0\n\
both --elf e --script s --harts one\n\
both --elf e --script s --at a\n\
probe --at a --elf e\n\
probe --elf e --script s\n\
probe --at a --elf e --script s --chain 4,t\n\
probe --at a --elf e --script s --elf e\n\
probe --at a --elf e --script s --halted\n\
probe --at a --elf e --script s --piece 1\n\
chip --at a --elf e\n\
chip --at a --image i --elf e\n\
sniff --stream s --answers a --elf e\n\
both --soft\n\
both --soft --image i\n\
both --soft --script s\n\
both --soft --soft --image i --script s\n\
both --soft=true --image i --script s\n\
both --soft --gen 5\n\
both --soft --elf e --script s\n\
both --soft --elf e --image i --script s\n\
both --soft --image i --script s --gen 5\n\
both --soft --image i --script s --chain 4,t\n\
both --soft --image i --script s --loopback\n\
both --soft --image i --script s --piece 257\n\
both --soft --image i --script s --busy 0\n\
both --soft --image i --script s --harts one\n\
both --soft --image i --script s --at a\n\
probe --soft --at a\n\
probe --soft --script s\n\
probe --soft --soft --at a --script s\n\
probe --soft --at a --script s --elf e\n\
probe --soft --at a --script s --chain 4,t\n\
probe --soft --at a --script s --halted\n\
chip --soft --at a --image i\n\
sniff --soft --stream s --answers a";

/// Lines of words that write no job, and what is said of them, with a bar between them and a line feed after each pair but the last.
pub(super) const WHYS: &str = "Both --gen 5|'Both' is no job: both, probe, chip and sniff are\n\
both --speed 1 --gen 5|unexpected argument '--speed' found\n\
chip --at a --image i --busy 33|33 of --busy is not from 1 to 32\n\
chip --at a --image i --busy 0x21|0x21 of --busy is not from 1 to 32\n\
both --gen 5 --events 0|0 of --events is not from 1 to 4611686018427387904\n\
chip --at a --image i --events 4611686018427387905|4611686018427387905 of --events is not from 1 to 4611686018427387904\n\
both --piece 0 --gen 5|0 of --piece is not from 1 to 256\n\
both --gen 5 --piece 257|257 of --piece is not from 1 to 256\n\
both --gen 5 --harts one|'one' of --harts is no number below 2^64, decimal or 0x and hexadecimal digits\n\
both --gen 5 --ram 64k|'64k' of --ram is no number below 2^64, decimal or 0x and hexadecimal digits\n\
chip --at a --image i --seed 18446744073709551616|'18446744073709551616' of --seed is no number below 2^64, decimal or 0x and hexadecimal digits\n\
both --gen x|'x' of --gen is no number below 2^64, decimal or 0x and hexadecimal digits\n\
both --gen 5 --script s|--script may not stand beside --gen\n\
both --gen 5 --image i --script s|--image may not stand beside --gen\n\
both --image i|--script is missing\n\
both --script s|--image is missing\n\
probe --script s|--at is missing\n\
probe --at a|--script is missing\n\
chip --at a|--image is missing\n\
chip --image i --busy 40|--at is missing\n\
sniff --vcd|--stream is missing\n\
sniff --vcd --stream s|--answers is missing\n\
both --gen 5 --chain 4,4|'4,4' of --chain is no list from TDI to TDO, parted by commas, of 't' for the chip and the instruction register lengths, \
from 2 to 8, of 1 to 7 others\n\
probe --at a --script s --chain t|'t' of --chain is no list from TDI to TDO, parted by commas, of 't' for the chip and the instruction register lengths, \
from 2 to 8, of 1 to 7 others\n\
chip --at a --image i --chain t,9|'t,9' of --chain is no list from TDI to TDO, parted by commas, of 't' for the chip and the instruction register lengths, \
from 2 to 8, of 1 to 7 others\n\
both --gen 5 --loopback --chain 4,4|'4,4' of --chain is no list from TDI to TDO, parted by commas, of 't' for the chip and the instruction register lengths, \
from 2 to 8, of 1 to 7 others\n\
both --gen 5 --chain 4,t,6 --loopback|--chain may not stand beside --loopback\n\
both --elf e --script s --image i|--image may not stand beside --elf\n\
both --elf e --gen 5|--gen may not stand beside --elf\n\
both --elf e --script s --chain 4,4|--chain may not stand beside --elf\n\
both --elf e --script s --loopback|--elf may not stand beside --loopback\n\
both --elf e|--script is missing\n\
both --elf e --script s --piece 0|0 of --piece is not from 1 to 256\n\
both --elf e --script s --busy 33|33 of --busy is not from 1 to 32\n\
probe --at a --elf e|--script is missing\n\
probe --elf e --script s|--at is missing\n\
probe --at a --elf e --script s --chain t,8|--chain may not stand beside --elf\n\
both --soft --gen 5|--gen may not stand beside --soft\n\
both --soft --elf e --gen 5|--elf may not stand beside --soft\n\
both --soft --image i --script s --chain 4,4|--chain may not stand beside --soft\n\
both --soft --image i --loopback|--soft may not stand beside --loopback\n\
both --soft --script s|--image is missing\n\
both --soft --image i|--script is missing\n\
both --soft --image i --script s --piece 0|0 of --piece is not from 1 to 256\n\
both --soft --image i --script s --busy 33|33 of --busy is not from 1 to 32\n\
probe --soft --at a --elf e|--elf may not stand beside --soft\n\
probe --soft --at a --script s --chain t,8|--chain may not stand beside --soft\n\
probe --soft --script s|--at is missing\n\
probe --soft --at a|--script is missing";

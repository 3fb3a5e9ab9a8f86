//! What the program prints for its words and its input, worked by hand. The tests of `run` go over these rows, and
//! `examples/program/check.py` runs the built program for them.
//!
//! Each row has the words of one or more runs after their exit status, with `''` for an empty word; the lines of the
//! input after `|`; those on standard output after `=`, in which `..` stands for any lines; and the line on standard error
//! after `!`. A ` / ` joins runs of one status, or lines of one kind. The input is standard input, and the two files `log` and `file`.
//! There is no file `gone`.

pub const ROWS: &str = r#"
# a base that is rounded down, and a top that is rounded up
0 round 0000000000000001 0000000000001fff
= base 0000000000000000 / top 00000000000002000 / ie 1 / e 1 / exact no

# the whole address space
0 round 0000000000000001 fffffffffffffffe / round 0000000000000001 ffffffffffffffff
= base 0000000000000000 / top 10000000000000000 / ie 1 / e 52 / exact no

# the greatest length that has no exponent
0 round 0000000000001000 0000000000000fff
= base 0000000000001000 / top 00000000000001fff / ie 0 / e 0 / exact yes

# the least exponent, and a top that is rounded up
0 round 0000000000001000 0000000000001001
= base 0000000000001000 / top 00000000000002008 / ie 1 / e 0 / exact no

# a request that ends above the address space
2 round 0000000000000002 ffffffffffffffff
! capcheck: bad request

# words that are no number of the right digits
2 round 000000000000001 0000000000000001 / round 0000000000000001 000000000000000F / round '' ffffffffffffffffff
2 round 1 '' / explain 00001ffffc018004000000000000000 / explain 00001ffffc01800400000000000000000
2 explain 00001Ffffc0180040000000000000000 / explain '' / explain 12 / explain --memory 12 / explain --tag 12
2 explain --memory --tag 12
! capcheck: bad word

# the word whose bytes in memory are all zero
0 explain 00001ffffc0180040000000000000000 / explain --memory 00000000000000000000000000000000
= word 00001ffffc0180040000000000000000 / memory 00000000000000000000000000000000 / tag 0 / perms 00000000
= otype 3ffff unsealed / flag 0 / reserved 0 / ie 1 / e 52 / b 0000 / t 1000 / address 0000000000000000
= base 0000000000000000 / top 10000000000000000 / sound yes

# a capability by its word and by its bytes in memory
0 explain --tag ffff1ffffbffd0000000000000001000 / explain --memory --tag 00100000000000000450fe070000ffff
= word ffff1ffffbffd0000000000000001000 / memory 00100000000000000450fe070000ffff / tag 1 / perms 00078fff
= otype 3ffff unsealed / flag 0 / reserved 0 / ie 0 / e 0 / b 1000 / t 1fff / address 0000000000001000
= base 0000000000001000 / top 00000000000001fff / sound yes

# the same without its tag
0 explain ffff1ffffbffd0000000000000001000 / explain --memory 00100000000000000450fe070000ffff
= word ffff1ffffbffd0000000000000001000 / memory 00100000000000000450fe070000ffff / tag 0 / perms 00078fff
= otype 3ffff unsealed / flag 0 / reserved 0 / ie 0 / e 0 / b 1000 / t 1fff / address 0000000000001000
= base 0000000000001000 / top 00000000000001fff / sound yes

# bounds that end behind the address space
0 explain ffff1ffffc01a0030000000000000000
= .. / reserved 0 / ie 1 / e 51 / b 2000 / t 3000 / address 0000000000000000 / base 0000000000000000
= top 18000000000000000 / sound no

# an exponent above the greatest
0 explain ffff1ffffc0180050000000000000000
= .. / ie 1 / e 53 / b 0000 / t 1000 / address 0000000000000000 / base 0000000000000000 / top 10000000000000000
= sound yes

# the greatest object type that a seal gives
0 explain ffff1fffdc0180040000000000000000
= .. / otype 3fffb sealed / flag 0 / reserved 0 / ..

# a reserved object type
0 explain ffff1fffe40180040000000000000000
= .. / otype 3fffc reserved / flag 0 / reserved 0 / ..

# the flag and the reserved bits
0 explain fffffffffc0180040000000000001000
= .. / otype 3ffff unsealed / flag 1 / reserved 3 / ..

# words that have none of the forms
2
2 '' / judges / judge - / judge a b / judge log --origins / judge --origins --origins / judge --why / judge --why log
2 judge log --why / judge --why -log / judge --origins --why / judge --origins --why log / judge --why --origins / why
2 why log / vectors / vectors -file / vectors file file / vectors --origins log / round / round 1 / round 1 -2
2 round -1 2 / round 1 2 3 / explain / explain --tag / explain --tag --memory 12 / explain --memory --memory 12
2 explain 12 --tag / explain -12 / explain --tag --memory 00100000000000000450fe070000ffff
| capcheck 1 / end 0
! capcheck: bad words

# no steps
0 judge / judge log / judge --origins / judge --origins log
| capcheck 1 / end 0
= yes 0 0

# a wrong count
1 judge / judge log / judge --origins / judge --origins log
| capcheck 1 / end 1
= no 2 6 WrongCount

# files that aren't there, though standard input has a log
3 judge gone / judge --origins gone / judge '' / vectors gone / vectors ''
| capcheck 1 / end 0
! capcheck: read fault

# a vector that is so
0 vectors file
| memory 00001ffffc0180040000000000000000 = 00000000000000000000000000000000
= pass 1

# no bytes
1 judge / judge log
= no 1 5 Truncated

# no vectors
0 vectors file
= pass 0

# vectors of each form
0 vectors file
| bounds 00001ffffc0180040000000000000000 = 0000000000000000 10000000000000000 1
| bounds ffff1ffffbffd0000000000000001000 = 0000000000001000 00000000000001fff 1
| bounds ffff1ffffc0010000000000000001000 = 0000000000001000 00000000000002000 1
| bounds ffff1ffffc0210000000000000001000 = 0000000000001000 00000000000002008 1
| bounds ffff1ffffbffdfff0000000000001fff = 0000000000001fff 00000000000001fff 1
| bounds ffff1ffff80810000000000000001000 = 0000000000001000 00000000000001020 1
| bounds ffff1ffffbffc000fffffffffffff800 = 0000000000000000 00000000000000fff 1
| bounds ffff1ffffbffc000fffffffffffff7ff = ffffffffffffc000 0ffffffffffffcfff 1
| bounds ffff1ffff8007fffffffffffffffffff = ffffffffffffffff 10000000000000001 0
| bounds ffff1ffffc01a0030000000000000000 = 0000000000000000 18000000000000000 0
| bounds ffff1ffffc0180050000000000000000 = 0000000000000000 10000000000000000 1
| bounds ffff1ffffc0380040000000000001000 = 0000000000000000 10080000000000000 0
| keeps ffff1ffffbffc0000000000000000000 fffffffffffff800 = 1
| keeps ffff1ffffbffc0000000000000000000 00000000000037ff = 1
| keeps ffff1ffffbffc0000000000000000000 0000000000003800 = 0
| keeps ffff1ffffbffc0000000000000000000 fffffffffffff7ff = 0
| round 0000000000001000 0000000000000fff = 0000000000001000 00000000000001fff 0 0 1
| round 0000000000001000 0000000000001001 = 0000000000001000 00000000000002008 1 0 0
| round 0000000000000001 0000000000001fff = 0000000000000000 00000000000002000 1 1 0
| round 0000000000000001 fffffffffffffffe = 0000000000000000 10000000000000000 1 52 0
| memory 00001ffffc0180040000000000000000 = 00000000000000000000000000000000
| memory ffff1ffffbffd0000000000000001000 = 00100000000000000450fe070000ffff
= pass 22

# vectors at the greatest exponents and the ends of the address space
0 vectors file
| bounds ffff1ffffc0180020000000000000000 = 0000000000000000 04000000000000000 1
| bounds ffff1ffffc0180030000000000000000 = 0000000000000000 08000000000000000 1
| bounds ffff1ffffc01c0070000000000000000 = 0000000000000000 10000000000000000 1
| bounds ffff1ffffc01b002c000000000000000 = c000000000000000 10000000000000000 1
| bounds ffff1ffffc0190038000000000000000 = 8000000000000000 10000000000000000 1
| keeps ffff1ffffc0180040000000000000000 ffffffffffffffff = 1
| keeps ffff1ffffc0180030000000000000000 ffffffffffffffff = 1
| keeps ffff1ffffc0180020000000000000000 e000000000000000 = 1
| keeps ffff1ffffc0180010000000000000000 6fffffffffffffff = 1
| keeps ffff1ffffc0180010000000000000000 7000000000000000 = 0
| round 0000000000000000 0000000000000000 = 0000000000000000 00000000000000000 0 0 1
| round ffffffffffffffff 0000000000000001 = ffffffffffffffff 10000000000000000 0 0 1
| round 0000000000000000 8000000000000000 = 0000000000000000 08000000000000000 1 51 1
| round 0000000000000001 ffffffffffffffff = 0000000000000000 10000000000000000 1 52 0
= pass 14

# the same with another soundness on the third line
1 vectors file
| bounds ffff1ffffc0180020000000000000000 = 0000000000000000 04000000000000000 1
| bounds ffff1ffffc0180030000000000000000 = 0000000000000000 08000000000000000 1
| bounds ffff1ffffc01c0070000000000000000 = 0000000000000000 10000000000000000 0
| bounds ffff1ffffc01b002c000000000000000 = c000000000000000 10000000000000000 1
| bounds ffff1ffffc0190038000000000000000 = 8000000000000000 10000000000000000 1
| keeps ffff1ffffc0180040000000000000000 ffffffffffffffff = 1
| keeps ffff1ffffc0180030000000000000000 ffffffffffffffff = 1
| keeps ffff1ffffc0180020000000000000000 e000000000000000 = 1
| keeps ffff1ffffc0180010000000000000000 6fffffffffffffff = 1
| keeps ffff1ffffc0180010000000000000000 7000000000000000 = 0
| round 0000000000000000 0000000000000000 = 0000000000000000 00000000000000000 0 0 1
| round ffffffffffffffff 0000000000000001 = ffffffffffffffff 10000000000000000 0 0 1
| round 0000000000000000 8000000000000000 = 0000000000000000 08000000000000000 1 51 1
| round 0000000000000001 ffffffffffffffff = 0000000000000000 10000000000000000 1 52 0
= fail 3

# a request that ends above the address space, as a vector
1 vectors file
| round 0000000000000002 ffffffffffffffff = 0000000000000000 10000000000000000 1 52 0
= fail 1

# a vector without a form
1 vectors file
| bounds
= fail 1

# a register that was cleared, and a granule
0 judge --origins / judge --origins log
| capcheck 1 / root c1 ffff1ffffc0180040000000000000000 / move c2 c1 = 1 ffff1ffffc0180040000000000000000
| sc c2 c1 16 / cleartag c1 c1 = 0 ffff1ffffc0180040000000000000000 / end 3
= yes 3 1 / origin c2 c1 / origin @0000000000000010 c1

# the same without origins
0 judge / judge log
| capcheck 1 / root c1 ffff1ffffc0180040000000000000000 / move c2 c1 = 1 ffff1ffffc0180040000000000000000
| sc c2 c1 16 / cleartag c1 c1 = 0 ffff1ffffc0180040000000000000000 / end 3
= yes 3 1

# a root in a granule
0 judge --origins / judge --origins log
| capcheck 1 / root c1 ffff1ffffc0180040000000000000000 / root @0000000000000000 ffff1ffffbffd0000000000000001000
| lc c2 c1 0 = 1 ffff1ffffbffd0000000000000001000 / move c1 c2 = 1 ffff1ffffbffd0000000000000001000 / end 2
= yes 2 2 / origin c1 @0000000000000000 / origin c2 @0000000000000000 / origin @0000000000000000 @0000000000000000

# a tag in memory that is lost to a store of a byte
0 judge --origins / judge --origins log
| capcheck 1 / root c1 ffff1ffffc0180040000000000000000 / sc c1 c1 0 / store c1 0 1 aa
| lc c3 c1 0 = 0 ffff1ffffc01800400000000000000aa / end 3
= yes 3 1 / origin c1 c1

# the same with a tag that stayed
1 judge / judge log / judge --origins / judge --origins log
| capcheck 1 / root c1 ffff1ffffc0180040000000000000000 / sc c1 c1 0 / store c1 0 1 aa
| lc c3 c1 0 = 1 ffff1ffffc01800400000000000000aa / end 3
= no 5 23 WrongResult

# registers by number, and then granules by address
0 judge --origins / judge --origins log
| capcheck 1 / root c3 ffff1ffffc0180040000000000000000 / root @0000000000000040 ffff1ffffbffd0000000000000001000
| sc c3 c3 32 / move c31 c3 = 1 ffff1ffffc0180040000000000000000 / sc c0 c3 16
| lc c2 c3 64 = 1 ffff1ffffbffd0000000000000001000 / sc c2 c3 0 / end 5
= yes 5 2 / origin c2 @0000000000000040 / origin c3 c3 / origin c31 c3 / origin @0000000000000000 @0000000000000040
= origin @0000000000000020 c3 / origin @0000000000000040 @0000000000000040

# bounds outside their source's
1 judge / judge log / judge --origins / judge --origins log
| capcheck 1 / root c1 ffff1ffffc0180040000000000000000
| setaddr c2 c1 0000000000001000 = 1 ffff1ffffc0180040000000000001000
| setbounds c3 c2 0000000000000020 = 1 ffff1ffff80810000000000000001000
| setbounds c4 c3 0000000000000021 = 1 ffff1ffff80850000000000000001000 / end 3
= no 5 11 BoundsEscape
"#;

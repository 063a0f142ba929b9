//! Words of CSRs and the system, and what binutils' objdump says of each.
// Written by tools/walk. Do not edit.

/// Words with what they say: the mnemonic, and the operands as numbers.
pub static SYSTEM: &str = "\
5d019df3 csrrw 27 1488 3\n\
5d111ef3 csrrw 29 1489 2\n\
5d5b9073 csrrw 0 1493 23\n\
5df89873 csrrw 16 1503 17\n\
5d021473 csrrw 8 1488 4\n\
5da394f3 csrrw 9 1498 7\n\
5dfb16f3 csrrw 13 1503 22\n\
5d059073 csrrw 0 1488 11\n\
5d541af3 csrrw 21 1493 8\n\
5df317f3 csrrw 15 1503 6\n\
5d0a1473 csrrw 8 1488 20\n\
5df41af3 csrrw 21 1503 8\n\
5d0c2b73 csrrs 22 1488 24\n\
5d17a1f3 csrrs 3 1489 15\n\
5d5caa73 csrrs 20 1493 25\n\
5dfa2b73 csrrs 22 1503 20\n\
5d0da5f3 csrrs 11 1488 27\n\
5dacaaf3 csrrs 21 1498 25\n\
5dfea173 csrrs 2 1503 29\n\
5d0a2673 csrrs 12 1488 20\n\
5d582f73 csrrs 30 1493 16\n\
5dfaaff3 csrrs 31 1503 21\n\
5d002473 csrrs 8 1488 0\n\
5df4ab73 csrrs 22 1503 9\n\
5d03bcf3 csrrc 25 1488 7\n\
5d193873 csrrc 16 1489 18\n\
5d58b6f3 csrrc 13 1493 17\n\
5dfdb7f3 csrrc 15 1503 27\n\
5d01b5f3 csrrc 11 1488 3\n\
5daeb173 csrrc 2 1498 29\n\
5df3b873 csrrc 16 1503 7\n\
5d053cf3 csrrc 25 1488 10\n\
5d55b573 csrrc 10 1493 11\n\
5df0b373 csrrc 6 1503 1\n\
5d05bcf3 csrrc 25 1488 11\n\
5dffb2f3 csrrc 5 1503 31\n\
5d035ef3 csrrwi 29 1488 6\n\
5d11d673 csrrwi 12 1489 3\n\
5d5bd5f3 csrrwi 11 1493 23\n\
5df3dff3 csrrwi 31 1503 7\n\
5d085af3 csrrwi 21 1488 16\n\
5da85373 csrrwi 6 1498 16\n\
5df2df73 csrrwi 30 1503 5\n\
5d025c73 csrrwi 24 1488 4\n\
5d575ef3 csrrwi 29 1493 14\n\
5dfbdef3 csrrwi 29 1503 23\n\
5d045bf3 csrrwi 23 1488 8\n\
5df4d0f3 csrrwi 1 1503 9\n\
5d066973 csrrsi 18 1488 12\n\
5d1eee73 csrrsi 28 1489 29\n\
5d596cf3 csrrsi 25 1493 18\n\
5df5ee73 csrrsi 28 1503 11\n\
5da9ea73 csrrsi 20 1498 19\n\
5df66bf3 csrrsi 23 1503 12\n\
5d0868f3 csrrsi 17 1488 16\n\
5d506973 csrrsi 18 1493 0\n\
5dfaea73 csrrsi 20 1503 21\n\
5d0ee7f3 csrrsi 15 1488 29\n\
5df46df3 csrrsi 27 1503 8\n\
5d0af373 csrrci 6 1488 21\n\
5d117073 csrrci 0 1489 2\n\
5d5973f3 csrrci 7 1493 18\n\
5df9fe73 csrrci 28 1503 19\n\
5d0af8f3 csrrci 17 1488 21\n\
5daaf0f3 csrrci 1 1498 21\n\
5dfbf373 csrrci 6 1503 23\n\
5d087473 csrrci 8 1488 16\n\
5d52f273 csrrci 4 1493 5\n\
5df37ff3 csrrci 31 1503 6\n\
5d0f7d73 csrrci 26 1488 30\n\
5dfa74f3 csrrci 9 1503 20\n\
00000073 ecall\n\
00001073 csrrw 0 0 0\n\
00002073 csrrs 0 0 0\n\
00100073 ebreak\n\
30200073 mret\n\
10500073 wfi";
